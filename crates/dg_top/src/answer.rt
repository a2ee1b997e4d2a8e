//! What a program writes, and the status with which it does.

ghost use Rattle.std.specs.Prelude.{◌≡◌, IfOk};
ghost use Rattle.dg_top.specs.Output.{too_long_text, bad_line_text};

use crate::status::Status;
use dg_types::NoMemory;
use itoa::Buffer;
use std::alloc::Global;

/// What a program writes, and the status that it ends with once all is written.
#[derive(Drop)]
pub struct Answer {
    pub status: Status,
    pub text: Vec<u8>,
}

#[tactic(auto, unfolding(crate::specs::Output::too_long_text))]
pub fn too_long(alloc: Global) -> Result<Answer, NoMemory>
    ensures exact { IfOk result (λ a.
        (a.status ≡ Status.TooLong) × (a.text.items ≡ too_long_text)) }
{
    Ok(Answer {
        status: Status::TooLong,
        text: Vec::from_slice(alloc, b"too long\n")?,
    })
}

#[tactic(auto, unfolding(crate::specs::Output::bad_line_text))]
pub fn bad_line(alloc: Global, line: u32) -> Result<Answer, NoMemory>
    ensures exact { IfOk result (λ a.
        (a.status ≡ Status.BadLine) × (a.text.items ≡ bad_line_text line)) }
{
    let mut buffer = Buffer::new();
    let mut text = Vec::from_slice(alloc, b"bad line ")?;
    text.extend_from_slice(buffer.format(line).as_bytes())?;
    text.push(b'\n')?;
    Ok(Answer {
        status: Status::BadLine,
        text,
    })
}
