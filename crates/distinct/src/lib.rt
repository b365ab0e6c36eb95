// Whether two blocks share a vip: document 01's refusal 9. The blocks were accepted before, the file is only read, and the memory is 64,000
// bytes of stack. n blocks take at most n / 8000 + 2 walks, whatever their vips and their order; no contract says this.
#![tactic(auto)]

ghost use Rattle.std.specs.Prelude.{◌≡◌, true, false, List, ℕ, ◌<◌, length, MatchOption};
ghost use Rattle.fields.specs.Parse.{ok, many};
ghost use Rattle.pod.specs.Values.{BasicBlock};
ghost use Rattle.pod.specs.Layout.{block};
ghost use Rattle.pod.specs.Blocks.{vips, repeats};
ghost use Rattle.sorting.specs.Buffer.{TOP};
ghost use Rattle.distinct.specs.Walked.{vips_of, TopTwice, Gathered};

mod accepted;

use accepted::Blocks;

impl Blocks<'_> {
    // Whether the highest number is the vip of two blocks. Where it is not, it can stand for an empty place in the buffer.
    fn top_twice(&self) -> bool
        ensures { TopTwice (vips_of self.now) result }
    {
        let mut at = self.start;
        let mut seen = false;
        for passed in 0..self.count {
            let block = ends::block_at(self.s, at);
            at = block.next;
            if block.vip.0 == sorting::TOP {
                if seen {
                    return true;
                }
                seen = true;
            }
        }
        false
    }

    // The least vips from `lo` on, as many as the buffer holds, as a heap with the largest on top. The answer: every vip from `lo` to below it is
    // there; or nothing, where a vip repeats.
    fn gather(&self, lo: u64, b: &mut [u64]) -> Option<u64>
        requires { (0 < length b.old) × (lo < TOP) }
        ensures { MatchOption result (repeats (vips_of self.now) ≡ true) (λ hi. Gathered (vips_of self.now) lo hi b.new) }
    {
        sorting::clear(b);
        let size = b.len();
        let mut at = self.start;
        let mut hi = sorting::TOP;
        for passed in 0..self.count {
            let block = ends::block_at(self.s, at);
            at = block.next;
            let vip = block.vip.0;
            if lo <= vip && vip < hi {
                let largest = b[0];
                if vip == largest {
                    return None;
                }
                if vip < largest {
                    b[0] = vip;
                    sorting::sift(b, size);
                    hi = largest;
                } else {
                    hi = vip;
                }
            }
        }
        Some(hi)
    }

    // Pass after pass, each from where the last one's vips end: every pass but the last settles as many vips as the buffer holds.
    fn passes(&self, b: &mut [u64]) -> bool
        requires { (0 < length b.old) × TopTwice (vips_of self.now) false }
        ensures { result ≡ repeats (vips_of self.now) }
    {
        let mut lo = 0;
        while lo < sorting::TOP {
            let Some(hi) = self.gather(lo, b) else {
                return true;
            };
            sorting::sort(b);
            if sorting::has_repeat_sorted(b) {
                return true;
            }
            lo = hi;
        }
        false
    }

    // The search with a buffer of the caller's, whose content is lost.
    #[tactic(auto, using(crate::proofs::Rounds::few))]
    fn has_repeat(&self, b: &mut [u64]) -> bool
        requires { 0 < length b.old }
        ensures { result ≡ repeats (vips_of self.now) }
    {
        if self.count < 2 {
            return false;
        }
        if self.top_twice() {
            return true;
        }
        // no more of the buffer than the blocks fill
        let filled = self.count.min(b.len());
        self.passes(&mut b[..filled])
    }
}

// Whether two of the `count` blocks from `start` share a vip. It says so of blocks that a walk accepted; of other bytes it says nothing. Not inlined: in the
// walk over the blocks, which asks it only where vips do not rise, the two would share the registers, and both be slower.
#[inline(never)]
pub fn has_repeat(s: &[u8], start: usize, count: u32) -> bool
    ensures { (bs : List BasicBlock) (end : ℕ) → many block count s.now start ≡ ok bs end → result ≡ repeats (vips bs) }
{
    let blocks = Blocks {
        s,
        start,
        count: count as usize,
    };
    let mut b = [0u64; 8000];
    blocks.has_repeat(&mut b)
}
