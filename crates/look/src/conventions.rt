// Looking at a convention, and at its registers. Convention 0 is the routine's, 1 the subroutine's, then the special ones.
ghost use Rattle.std.specs.Prelude.{◌≡◌, ℕ};
ghost use Rattle.fields.specs.Parse.{ok};
ghost use Rattle.fields.specs.Outcome.{of_result};
ghost use Rattle.pod.specs.Values.{RoutineConvention};
ghost use Rattle.pod.specs.Layout.{convention, register};
ghost use Rattle.machine.specs.Look.{look_convention, register_list, look_register};
ghost use Rattle.book.specs.Says.{state_of};
ghost use Rattle.look.specs.Answers.{convention_look, register_look};
ghost use Rattle.look.specs.Reached.{Reaches, Lists};

use crate::{ConventionLook, Elements, RegisterLook};
use book::Lent;
use fields::Refusal;
use pod::RegisterDesc;

// The convention at a place: where it stands, or why there is none to look at.
fn reach_convention(lent: Lent, place: u64) -> Result<usize, Refusal>
    ensures { Reaches convention lent.entry.image.now (look_convention place (state_of lent.entry)) result }
{
    image::inspect(lent)?;
    let special = image::special_count(lent.image);
    if special as u64 + 2 <= place {
        return Err(Refusal::NoSuchBlock);
    }
    let at = image::convention_offset(lent.image, place as usize);
    Ok(at)
}

// At a convention.
#[tactic(auto, unfolding(crate::specs::Answers::convention_look, pread::specs::Answers::convention_read))]
pub fn look_convention(lent: Lent, place: u64) -> ConventionLook
    ensures { result ≡ convention_look (look_convention place (state_of lent.entry)) }
{
    match reach_convention(lent, place) {
        Ok(at) => {
            let convention = pread::convention_at(lent.image, at);
            ConventionLook {
                refusal: 0,
                frame_register: convention.frame_register,
                shadow_space: convention.shadow_space,
                purge_stack: convention.purge_stack,
                volatile_registers: convention.volatile_registers,
                param_registers: convention.param_registers,
                retval_registers: convention.retval_registers,
            }
        }
        Err(refusal) => ConventionLook {
            refusal: u64::from(refusal),
            frame_register: pod::NO_REGISTER,
            shadow_space: 0,
            purge_stack: 0,
            volatile_registers: 0,
            param_registers: 0,
            retval_registers: 0,
        },
    }
}

// A list of registers of the convention that stands at `at`: 0 volatile, 1 param, 2 retval.
#[tactic(auto, unfolding(fields::specs::Lists::choose))]
fn registers_of(image: &[u8], at: usize, list: u64) -> Option<Elements>
    ensures { (c : RoutineConvention) (n : ℕ) → convention image.now at ≡ ok c n → Lists register image.now (register_list list c) result }
{
    let convention = pread::convention_at(image, at);
    match list {
        0 => Some(Elements {
            first: convention.volatile_at,
            count: convention.volatile_registers,
        }),
        1 => Some(Elements {
            first: convention.param_at,
            count: convention.param_registers,
        }),
        2 => Some(Elements {
            first: convention.retval_at,
            count: convention.retval_registers,
        }),
        _ => None,
    }
}

// The register at a place of one of a convention's lists, or why there is none to look at.
fn register_in(lent: Lent, convention: u64, list: u64, place: u64) -> Result<RegisterDesc, Refusal>
    ensures { of_result result ≡ look_register convention list place (state_of lent.entry) }
{
    let start = reach_convention(lent, convention)?;
    let Some(registers) = registers_of(lent.image, start, list) else {
        return Err(Refusal::NoSuchBlock);
    };
    if registers.count <= place {
        return Err(Refusal::NoSuchBlock);
    }
    let at = registers.first + ends::REGISTER_SIZE * (place as usize);
    Ok(pread::register_at(lent.image, at).register)
}

// At a register of one of a convention's lists: 0 volatile, 1 param, 2 retval.
#[tactic(auto, unfolding(crate::specs::Answers::register_look))]
pub fn look_register(lent: Lent, convention: u64, list: u64, place: u64) -> RegisterLook
    ensures { result ≡ register_look (look_register convention list place (state_of lent.entry)) }
{
    match register_in(lent, convention, list, place) {
        Ok(register) => RegisterLook {
            refusal: 0,
            register,
        },
        Err(refusal) => RegisterLook {
            refusal: u64::from(refusal),
            register: pod::NO_REGISTER,
        },
    }
}
