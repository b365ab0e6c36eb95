// Reading by offset, as scroll's `pread`: a part of a routine at any offset of any bytes, by value, with the offset past it, and of each list the offset
// past its count and how many elements there are. A part is accepted and refused as in a file; with a refusal the other fields of an answer are 0. An
// instruction is read by value::instruction_at.
#![tactic(auto)]

ghost use Rattle.std.specs.Prelude.{◌≡◌, MatchResult};
ghost use Rattle.fields.specs.Parse.{no, u64};
ghost use Rattle.fields.specs.Refusals.{number};
ghost use Rattle.pod.specs.Layout.{register, convention, block, routine};
ghost use Rattle.pread.specs.Answers.{routine_read, convention_read, register_read, block_read, vip_read};
ghost use Rattle.pread.specs.Stands.{BlockStands, RoutineStands};

use fields::Refusal;
use pod::{RegisterDesc, Vip};

// The answers are for C, so a refusal is a number in them, and 0 is none.

// The machine and the entry vip, where the conventions begin, and the numbers of special conventions and of blocks. The routine's convention is the first,
// the subroutine's follows it; the special ones stand after their count.
#[repr(C)]
#[derive(Clone, Copy)]
pub struct RoutineRead {
    pub refusal: u64,
    pub end: usize,
    pub arch_id: u64,
    pub vip: Vip,
    pub conventions_at: usize,
    pub spec_conventions: u64,
    pub blocks_at: usize,
    pub blocks: u64,
}

// A convention's frame register, shadow space and purge, and its three lists of registers.
#[repr(C)]
#[derive(Clone, Copy)]
pub struct ConventionRead {
    pub refusal: u64,
    pub end: usize,
    pub frame_register: RegisterDesc,
    pub shadow_space: u64,
    pub purge_stack: u64,
    pub volatile_at: usize,
    pub volatile_registers: u64,
    pub param_at: usize,
    pub param_registers: u64,
    pub retval_at: usize,
    pub retval_registers: u64,
}

#[repr(C)]
#[derive(Clone, Copy)]
pub struct RegisterRead {
    pub refusal: u64,
    pub end: usize,
    pub register: RegisterDesc,
}

// A block's four numbers, its instructions and its two lists of vips.
#[repr(C)]
#[derive(Clone, Copy)]
pub struct BlockRead {
    pub refusal: u64,
    pub end: usize,
    pub vip: Vip,
    pub sp_offset: i64,
    pub sp_index: u32,
    pub last_temporary_index: u32,
    pub instructions_at: usize,
    pub instructions: u64,
    pub prev_at: usize,
    pub prev_vips: u64,
    pub next_at: usize,
    pub next_vips: u64,
}

#[repr(C)]
#[derive(Clone, Copy)]
pub struct VipRead {
    pub refusal: u64,
    pub end: usize,
    pub vip: Vip,
}

// An element of a block's lists of vips.
#[tactic(auto, unfolding(crate::specs::Answers::vip_read))]
pub fn vip_at(s: &[u8], at: usize) -> VipRead
    ensures { result ≡ vip_read (u64 s.now at) }
{
    match fields::u64_at(s, at) {
        Ok((vip, end)) => VipRead {
            refusal: 0,
            end,
            vip: Vip(vip),
        },
        Err(refusal) => VipRead {
            refusal: refusal.into(),
            end: 0,
            vip: Vip(0),
        },
    }
}

// A register: an element of a convention's lists.
#[tactic(auto, unfolding(crate::specs::Answers::register_read))]
pub fn register_at(s: &[u8], at: usize) -> RegisterRead
    ensures { result ≡ register_read (register s.now at) }
{
    match pod::register_at(s, at) {
        Ok((register, end)) => RegisterRead {
            refusal: 0,
            end,
            register,
        },
        Err(refusal) => RegisterRead {
            refusal: refusal.into(),
            end: 0,
            register: pod::NO_REGISTER,
        },
    }
}

// A convention. Its lists are of registers, so each end is told by a count; the purge is the last byte.
#[tactic(auto, unfolding(crate::specs::Answers::convention_read))]
pub fn convention_at(s: &[u8], at: usize) -> ConventionRead
    ensures { result ≡ convention_read at (convention s.now at) }
{
    match convention::convention_skip(s, at) {
        Ok((_, end)) => {
            let param = ends::registers_end(s, at);
            let retval = ends::registers_end(s, param);
            let frame = ends::registers_end(s, retval);
            // the walk over the convention has read it before, so it is never refused, and NO_REGISTER never answered
            let frame_register = pod::register_at(s, frame).map_or(pod::NO_REGISTER, |(x, _)| x);
            let shadow = ends::jump(s, frame, ends::SHADOW_SPACE_AT);
            let last = end - 1;
            let purge_stack = u64::from(value::flag_bit(s[last]));
            ConventionRead {
                refusal: 0,
                end,
                frame_register,
                shadow_space: ends::word64(s, shadow),
                purge_stack,
                volatile_at: ends::jump(s, at, ends::COUNT_SIZE),
                volatile_registers: u64::from(ends::word32(s, at)),
                param_at: ends::jump(s, param, ends::COUNT_SIZE),
                param_registers: u64::from(ends::word32(s, param)),
                retval_at: ends::jump(s, retval, ends::COUNT_SIZE),
                retval_registers: u64::from(ends::word32(s, retval)),
            }
        }
        Err(refusal) => ConventionRead {
            refusal: refusal.into(),
            end: 0,
            frame_register: pod::NO_REGISTER,
            shadow_space: 0,
            purge_stack: 0,
            volatile_at: 0,
            volatile_registers: 0,
            param_at: 0,
            param_registers: 0,
            retval_at: 0,
            retval_registers: 0,
        },
    }
}

// Where the prev vips and the next vips of the block at `at` stand, and where it ends: its walk is block::block_skip's.
fn block_ends(s: &[u8], at: usize) -> Result<(usize, usize, usize), Refusal>
    ensures { MatchResult result (λ x. BlockStands s.now at x.0 x.1 x.2) (λ e. no (number e) ≡ block s.now at) }
{
    let (_, prev) = block::instructions_skip(s, at)?;
    let next = block::vips_skip(s, prev)?;
    let end = block::vips_skip(s, next)?;
    Ok((prev, next, end))
}

// A block.
#[tactic(auto, unfolding(crate::specs::Answers::block_read))]
pub fn block_at(s: &[u8], at: usize) -> BlockRead
    ensures { result ≡ block_read at (block s.now at) }
{
    match block_ends(s, at) {
        Ok((prev, next, end)) => BlockRead {
            refusal: 0,
            end,
            vip: Vip(ends::word64(s, at)),
            sp_offset: ends::word64(s, at + ends::SP_OFFSET_AT).cast_signed(),
            sp_index: ends::word32(s, at + ends::SP_INDEX_AT),
            last_temporary_index: ends::word32(s, at + ends::LAST_TEMPORARY_AT),
            instructions_at: at + ends::INSTRUCTIONS_AT,
            instructions: u64::from(ends::word32(s, at + ends::BLOCK_HEAD_SIZE)),
            prev_at: prev + ends::COUNT_SIZE,
            prev_vips: u64::from(ends::word32(s, prev)),
            next_at: next + ends::COUNT_SIZE,
            next_vips: u64::from(ends::word32(s, next)),
        },
        Err(refusal) => BlockRead {
            refusal: refusal.into(),
            end: 0,
            vip: Vip(0),
            sp_offset: 0,
            sp_index: 0,
            last_temporary_index: 0,
            instructions_at: 0,
            instructions: 0,
            prev_at: 0,
            prev_vips: 0,
            next_at: 0,
            next_vips: 0,
        },
    }
}

// Where the blocks of the routine at `at` stand, and where it ends: its walk is routine::routine_skip's.
fn routine_ends(s: &[u8], at: usize) -> Result<(usize, usize), Refusal>
    ensures { MatchResult result (λ x. RoutineStands s.now at x.0 x.1) (λ e. no (number e) ≡ routine s.now at) }
{
    let (_, list) = routine::head_skip(s, at)?;
    let (_, end) = routine::blocks_skip(s, list)?;
    Ok((list, end))
}

// A whole routine. The special conventions are counted after the other two.
#[tactic(auto, unfolding(crate::specs::Answers::routine_read))]
pub fn routine_at(s: &[u8], at: usize) -> RoutineRead
    ensures { result ≡ routine_read at (routine s.now at) }
{
    match routine_ends(s, at) {
        Ok((list, end)) => {
            let conventions_at = at + ends::CONVENTIONS_AT;
            let special = ends::conventions_end(s, conventions_at, 2);
            RoutineRead {
                refusal: 0,
                end,
                arch_id: u64::from(s[at + ends::MACHINE_AT]),
                vip: Vip(ends::word64(s, at + ends::ENTRY_VIP_AT)),
                conventions_at,
                spec_conventions: u64::from(ends::word32(s, special)),
                blocks_at: list + ends::COUNT_SIZE,
                blocks: u64::from(ends::word32(s, list)),
            }
        }
        Err(refusal) => RoutineRead {
            refusal: refusal.into(),
            end: 0,
            arch_id: 0,
            vip: Vip(0),
            conventions_at: 0,
            spec_conventions: 0,
            blocks_at: 0,
            blocks: 0,
        },
    }
}
