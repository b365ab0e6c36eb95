// The trailer, the 20 bytes that end a journal entry: written, read and cleared.
//
// These functions have a `requires`: they are for the crates above, which call them only with numbers that they have tested against the journal's
// length.
#![tactic(auto)]

ghost use Rattle.std.specs.Prelude.{◌≡◌, ◌+◌, ◌-◌, ◌≤◌, length, MatchOption};
ghost use Rattle.machine.specs.Trailer.{trailer, trailer_bytes};
ghost use Rattle.fields.specs.Parse.{ok};
ghost use Rattle.fields.specs.Bytes.{put, zeros};
ghost use Rattle.journal.specs.Says.{kind_of, trailer_of, IsOf, IsOfNone};

use pod::Vip;

// The edits that have an entry, each with the number that stands in its trailer.
#[derive(Clone, Copy, Debug, PartialEq, Eq)]
pub enum Edit {
    Create = 1,
    Remove = 2,
    Append = 3,
}

impl From<Edit> for u32 {
    ghost from_gives = { λ e n. n ≡ kind_of e };

    fn from(edit: Edit) -> u32 {
        edit as u32
    }
}

// `place` is the block's, and `len` the size of what was removed or appended; 0 at a create. `kind` is an edit's number; of a journal that somebody else wrote it
// may be any.
#[derive(Clone, Copy)]
pub struct Trailer {
    pub vip: Vip,
    pub place: u32,
    pub len: u32,
    pub kind: u32,
}

// The bytes of a trailer.
pub const TRAILER_SIZE: usize = 20;

pub fn put_trailer(journal: &mut [u8], at: usize, trailer: Trailer)
    requires { at + 20 ≤ length journal.old }
    ensures { journal.new ≡ put at (trailer_bytes (trailer_of trailer)) journal.old }
{
    buffer::put_u64(journal, at, trailer.vip.0);
    buffer::put_u32(journal, at + 8, trailer.place);
    buffer::put_u32(journal, at + 12, trailer.len);
    buffer::put_u32(journal, at + 16, trailer.kind);
}

// The edit whose number a trailer's kind is, if it is one's.
pub fn edit_of(kind: u32) -> Option<Edit>
    ensures { MatchOption result (IsOfNone kind) (IsOf kind) }
{
    match kind {
        1 => Some(Edit::Create),
        2 => Some(Edit::Remove),
        3 => Some(Edit::Append),
        _ => None,
    }
}

pub fn read_trailer(journal: &[u8], at: usize) -> Trailer
    requires { at + 20 ≤ length journal.now }
    ensures { trailer journal.now at ≡ ok (trailer_of result) (at + 20) }
{
    let vip = Vip(fields::eight(journal, at));
    let place = fields::four(journal, at + 8) as u32;
    let len = fields::four(journal, at + 12) as u32;
    let kind = fields::four(journal, at + 16) as u32;
    Trailer {
        vip,
        place,
        len,
        kind,
    }
}

// The trailer at the end of the used part becomes zeros. Answers how much is used before it.
pub fn clear_trailer(journal: &mut [u8], used: usize) -> usize
    requires { (20 ≤ used) × (used ≤ length journal.old) }
    ensures { (result ≡ used - 20) × (journal.new ≡ put (used - 20) (zeros 20) journal.old) }
{
    let before = used - TRAILER_SIZE;
    buffer::clear(journal, before, used);
    before
}
