// Calling conventions.
#![tactic(auto)]

ghost use Rattle.std.specs.Prelude.{◌≡◌};
ghost use Rattle.fields.specs.Answers.{of_read};
ghost use Rattle.pod.specs.Layout.{convention};
ghost use Rattle.pod.specs.Sound.{convention_sound};
ghost use Rattle.pod.specs.Told.{judged};
ghost use Rattle.pod.specs.Written.{convention_bytes, walked};

use fields::{Parsed, Sight};

// In a convention, the fields past its registers: shadow space 8, purge 1.
const TAIL_SIZE: usize = 9;

// The convention at `at` is passed over: whether every register in it is sound.
#[tactic(auto, unfolding(fields::specs::Parse::bind))]
fn convention_past(s: &[u8], at: usize) -> Parsed<bool>
    ensures { of_read result ≡ judged convention convention_sound s.now at }
{
    let (volatile, at) = pod::registers_skip(s, at)?;
    let (param, at) = pod::registers_skip(s, at)?;
    let (retval, at) = pod::registers_skip(s, at)?;
    let (frame, at) = pod::register_at(s, at)?;
    let end = fields::skip(s, at, TAIL_SIZE)?;
    Ok((volatile & param & retval & frame.is_sound(), end))
}

// The convention at `at` is walked over. Its flag, purge, is its last byte: in written form it is at most 1.
pub fn convention_skip(s: &[u8], at: usize) -> Parsed<Sight>
    ensures { of_read result ≡ walked convention convention_bytes convention_sound s.now at }
{
    let (sound, end) = convention_past(s, at)?;
    let written = s[end - 1] <= 1;
    Ok((Sight { written, sound }, end))
}
