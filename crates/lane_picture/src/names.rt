//! The name of a task, and the words about its calls.
ghost use Rattle.std.specs.Prelude.{◌≡◌, ◌++◌, ◌<◌};
ghost use Rattle.std.specs.Result.{OnOk};
ghost use Rattle.lane_picture.specs.Sizes.{drawn_of};
ghost use Rattle.lane_picture.specs.Drawing.{asked_text, calls_at, calls_text, longest_text, name_at};

use crate::parts::{AskedCall, LanePicture, Longest, TaskCalls};
use crate::text::{push_decimal, push_escaped, push_text};
use std::alloc::AllocError;

pub fn push_name(picture: &LanePicture<'_>, i: u32, out: &mut Vec<u8>) -> Result<(), AllocError>
    ensures { OnOk result (out.new.items ≡ out.old.items ++ name_at (drawn_of picture.now) i) }
{
    match picture.names.get(i as usize) {
        Some(name) => push_escaped(name.as_str(), out),
        None => Ok(()),
    }
}

fn push_longest(
    picture: &LanePicture<'_>,
    longest: Option<Longest>,
    out: &mut Vec<u8>,
) -> Result<(), AllocError>
    ensures { OnOk result (out.new.items ≡ out.old.items
        ++ longest_text (drawn_of picture.now) longest) }
{
    match longest {
        None => Ok(()),
        Some(call) => {
            push_text(", the longest of ", out)?;
            push_decimal(u64::from(call.turns), out)?;
            push_text(" turns from turn ", out)?;
            push_decimal(u64::from(call.from), out)?;
            push_text(" to ", out)?;
            push_name(picture, u32::from(call.server), out)
        }
    }
}

fn push_asked(
    picture: &LanePicture<'_>,
    asked: Option<AskedCall>,
    out: &mut Vec<u8>,
) -> Result<(), AllocError>
    ensures { OnOk result (out.new.items ≡ out.old.items
        ++ asked_text (drawn_of picture.now) asked) }
{
    match asked {
        None => Ok(()),
        Some(call) => {
            push_text(", open since turn ", out)?;
            push_decimal(u64::from(call.since), out)?;
            push_text(" to ", out)?;
            push_name(picture, u32::from(call.server), out)
        }
    }
}

fn push_calls(
    picture: &LanePicture<'_>,
    calls: &TaskCalls,
    out: &mut Vec<u8>,
) -> Result<(), AllocError>
    ensures { OnOk result (out.new.items ≡ out.old.items
        ++ calls_text (drawn_of picture.now) calls.now) }
{
    if calls.count == 0 {
        Ok(())
    } else {
        push_text("; calls: ", out)?;
        push_decimal(calls.count, out)?;
        push_longest(picture, calls.longest, out)?;
        push_asked(picture, calls.asked, out)
    }
}

/// Pushes the words about the calls of a task.
pub fn push_calls_at(picture: &LanePicture<'_>, i: u32, out: &mut Vec<u8>) -> Result<(), AllocError>
    ensures { OnOk result (out.new.items ≡ out.old.items
        ++ calls_text (drawn_of picture.now) (calls_at (drawn_of picture.now) i)) }
{
    match picture.calls.get(i as usize) {
        Some(calls) => push_calls(picture, calls, out),
        None => Ok(()),
    }
}
