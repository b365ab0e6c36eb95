// Looking at a book, by place from 0: at its routine, at a block and its instructions and vips, at a convention and its registers. Each look inspects
// the book first, so the order is 10, 13, 15; it hands no book back, and image and journal are lent read-only. What is looked at, or where it stands, is a
// Result; each public look makes of it the struct that C sees. With a refusal the other fields of that struct are 0.
#![tactic(auto)]

pub mod blocks;
pub mod conventions;

ghost use Rattle.std.specs.Prelude.{◌≡◌};
ghost use Rattle.machine.specs.Look.{look_routine};
ghost use Rattle.book.specs.Says.{state_of};
ghost use Rattle.look.specs.Answers.{routine_look};

use book::Lent;
use pod::{InstructionDesc, RegisterDesc, Vip};

// The machine, the entry vip, and the numbers of special conventions and of blocks.
#[repr(C)]
#[derive(Clone, Copy)]
pub struct RoutineLook {
    pub refusal: u64,
    pub arch_id: u64,
    pub vip: Vip,
    pub spec_conventions: u64,
    pub blocks: u64,
}

// A block's four numbers and three counts.
#[repr(C)]
#[derive(Clone, Copy)]
pub struct BlockLook {
    pub refusal: u64,
    pub vip: Vip,
    pub sp_offset: i64,
    pub sp_index: u32,
    pub last_temporary_index: u32,
    pub instructions: u64,
    pub prev_vips: u64,
    pub next_vips: u64,
}

#[repr(C)]
#[derive(Clone, Copy)]
pub struct InstructionLook {
    pub refusal: u64,
    pub instruction: InstructionDesc,
}

#[repr(C)]
#[derive(Clone, Copy)]
pub struct VipLook {
    pub refusal: u64,
    pub vip: Vip,
}

// A convention's frame register, shadow space and purge, and three counts.
#[repr(C)]
#[derive(Clone, Copy)]
pub struct ConventionLook {
    pub refusal: u64,
    pub frame_register: RegisterDesc,
    pub shadow_space: u64,
    pub purge_stack: u64,
    pub volatile_registers: u64,
    pub param_registers: u64,
    pub retval_registers: u64,
}

#[repr(C)]
#[derive(Clone, Copy)]
pub struct RegisterLook {
    pub refusal: u64,
    pub register: RegisterDesc,
}

// A list of vips or registers: where its first element begins, and how many there are.
#[derive(Clone, Copy)]
struct Elements {
    pub first: usize,
    pub count: u64,
}

// At the routine.
pub fn look_routine(lent: Lent) -> RoutineLook
    ensures { result ≡ routine_look (look_routine (state_of lent.entry)) }
{
    match image::inspect(lent) {
        Ok(()) => RoutineLook {
            refusal: 0,
            arch_id: lent.image[ends::MACHINE_AT] as u64,
            vip: Vip(ends::word64(lent.image, ends::ENTRY_VIP_AT)),
            spec_conventions: image::special_count(lent.image) as u64,
            blocks: image::blocks_of(lent.image).count as u64,
        },
        Err(refusal) => RoutineLook {
            refusal: u64::from(refusal),
            arch_id: 0,
            vip: Vip(0),
            spec_conventions: 0,
            blocks: 0,
        },
    }
}
