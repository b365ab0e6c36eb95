// Looking at a block, and at its instructions and vips.
ghost use Rattle.std.specs.Prelude.{◌≡◌, ℕ};
ghost use Rattle.fields.specs.Parse.{ok, u64};
ghost use Rattle.pod.specs.Values.{BasicBlock};
ghost use Rattle.pod.specs.Layout.{instruction, block};
ghost use Rattle.machine.specs.Look.{look_block, look_instruction, vip_list, look_vip};
ghost use Rattle.book.specs.Says.{state_of};
ghost use Rattle.look.specs.Answers.{block_look, instruction_look, vip_look};
ghost use Rattle.look.specs.Reached.{Reaches, Lists, of_vip};

use crate::{BlockLook, Elements, InstructionLook, VipLook};
use book::Lent;
use fields::Refusal;
use pod::Vip;

// The block at a place: where it stands, or why there is none to look at.
fn reach_block(lent: Lent, place: u64) -> Result<usize, Refusal>
    ensures { Reaches block lent.entry.image.now (look_block place (state_of lent.entry)) result }
{
    image::inspect(lent)?;
    let blocks = image::blocks_of(lent.image);
    if (blocks.count as u64) <= place {
        return Err(Refusal::NoSuchBlock);
    }
    let at = ends::blocks_end(lent.image, blocks.start, place as usize);
    Ok(at)
}

// At a block.
#[tactic(auto, unfolding(crate::specs::Answers::block_look, pread::specs::Answers::block_read))]
pub fn look_block(lent: Lent, place: u64) -> BlockLook
    ensures { result ≡ block_look (look_block place (state_of lent.entry)) }
{
    match reach_block(lent, place) {
        Ok(at) => {
            let block = pread::block_at(lent.image, at);
            BlockLook {
                refusal: 0,
                vip: block.vip,
                sp_offset: block.sp_offset,
                sp_index: block.sp_index,
                last_temporary_index: block.last_temporary_index,
                instructions: block.instructions,
                prev_vips: block.prev_vips,
                next_vips: block.next_vips,
            }
        }
        Err(refusal) => BlockLook {
            refusal: u64::from(refusal),
            vip: Vip(0),
            sp_offset: 0,
            sp_index: 0,
            last_temporary_index: 0,
            instructions: 0,
            prev_vips: 0,
            next_vips: 0,
        },
    }
}

// The instruction at a place of a block: where it stands, or why there is none to look at.
fn reach_instruction(lent: Lent, block: u64, place: u64) -> Result<usize, Refusal>
    ensures { Reaches instruction lent.entry.image.now (look_instruction block place (state_of lent.entry)) result }
{
    let start = reach_block(lent, block)?;
    let count = ends::word32(lent.image, start + ends::BLOCK_HEAD_SIZE);
    if (count as u64) <= place {
        return Err(Refusal::NoSuchBlock);
    }
    let at = ends::instructions_end(lent.image, start + ends::INSTRUCTIONS_AT, place as u32);
    Ok(at)
}

// At an instruction of a block.
#[tactic(auto, unfolding(crate::specs::Answers::instruction_look, value::specs::Answers::instruction_read, pod::specs::Descs::places))]
pub fn look_instruction(lent: Lent, block: u64, place: u64) -> InstructionLook
    ensures { result ≡ instruction_look (look_instruction block place (state_of lent.entry)) }
{
    match reach_instruction(lent, block, place) {
        Ok(at) => InstructionLook {
            refusal: 0,
            instruction: value::instruction_by_fields(lent.image, at).instruction,
        },
        Err(refusal) => InstructionLook {
            refusal: u64::from(refusal),
            instruction: value::NO_INSTRUCTION,
        },
    }
}

// A list of vips of the block that stands at `at`: 0 prev, 1 next.
#[tactic(auto, unfolding(fields::specs::Lists::choose))]
fn vips_of(image: &[u8], at: usize, list: u64) -> Option<Elements>
    ensures { (b : BasicBlock) (n : ℕ) → block image.now at ≡ ok b n → Lists u64 image.now (vip_list list b) result }
{
    let block = pread::block_at(image, at);
    match list {
        0 => Some(Elements {
            first: block.prev_at,
            count: block.prev_vips,
        }),
        1 => Some(Elements {
            first: block.next_at,
            count: block.next_vips,
        }),
        _ => None,
    }
}

// The vip at a place of one of a block's lists, or why there is none to look at.
fn vip_in(lent: Lent, block: u64, list: u64, place: u64) -> Result<Vip, Refusal>
    ensures { of_vip result ≡ look_vip block list place (state_of lent.entry) }
{
    let start = reach_block(lent, block)?;
    let Some(vips) = vips_of(lent.image, start, list) else {
        return Err(Refusal::NoSuchBlock);
    };
    if vips.count <= place {
        return Err(Refusal::NoSuchBlock);
    }
    let at = vips.first + ends::VIP_SIZE * (place as usize);
    Ok(pread::vip_at(lent.image, at).vip)
}

// At a vip of one of a block's lists: 0 prev, 1 next.
#[tactic(auto, unfolding(crate::specs::Answers::vip_look))]
pub fn look_vip(lent: Lent, block: u64, list: u64, place: u64) -> VipLook
    ensures { result ≡ vip_look (look_vip block list place (state_of lent.entry)) }
{
    match vip_in(lent, block, list, place) {
        Ok(vip) => VipLook { refusal: 0, vip },
        Err(refusal) => VipLook {
            refusal: u64::from(refusal),
            vip: Vip(0),
        },
    }
}
