//! Instructions with their values, and their bytes.

ghost use Rattle.std.specs.Prelude.{◌≡◌, ◌++◌, ◌<◌, ◌+◌, ◌-◌, ◌/◌, OnOk, IfOk, IfErr, Result, Ok, Err, None, Some, Option, length};
ghost use Rattle.thumb_insn.specs.declared.Insn.{Insn as Instruction};
ghost use Rattle.thumb_asm.specs.declared.Cause.{Cause as Why};
ghost use Rattle.thumb_encode.specs.Codes.{insn_size, fit_of};
ghost use Rattle.thumb_asm.specs.Meaning.{filled, within, aimed, fitting, fit_cause, halfword, code_bytes};
ghost use Rattle.thumb_asm.specs.Causes.{insn_cause};
ghost use Rattle.thumb_asm.specs.Passes.{Stops};
ghost use Rattle.thumb_asm.specs.Outputs.{Coded, Put, Finds};
ghost use Rattle.thumb_insn.specs.Range.{insn_of, IsCode};
ghost use Rattle.thumb_asm.specs.Sizes.{is_register_fit};
ghost use Rattle.thumb_asm.specs.Views.{fill, aim};

use super::{Cause, Stop};
use thumb_encode::{Fit, encode};
use thumb_insn::{Code, Insn};

/// An instruction with another value.
pub(crate) fn fill(insn: Insn, number: u32) -> Insn
    ensures { result ≡ fill insn number }
{
    match insn {
        Insn::ShiftImm { shift, d, m, .. } => Insn::ShiftImm {
            shift,
            d,
            m,
            by: number,
        },
        Insn::AddsImm3 { d, n, .. } => Insn::AddsImm3 {
            d,
            n,
            value: number,
        },
        Insn::SubsImm3 { d, n, .. } => Insn::SubsImm3 {
            d,
            n,
            value: number,
        },
        Insn::MovsImm { d, .. } => Insn::MovsImm { d, value: number },
        Insn::CmpImm { n, .. } => Insn::CmpImm { n, value: number },
        Insn::AddsImm8 { d, .. } => Insn::AddsImm8 { d, value: number },
        Insn::SubsImm8 { d, .. } => Insn::SubsImm8 { d, value: number },
        Insn::LdrLiteral { t, .. } => Insn::LdrLiteral { t, offset: number },
        Insn::StoreImm { size, t, n, .. } => Insn::StoreImm {
            size,
            t,
            n,
            offset: number,
        },
        Insn::LoadImm { size, t, n, .. } => Insn::LoadImm {
            size,
            t,
            n,
            offset: number,
        },
        Insn::StoreSp { t, .. } => Insn::StoreSp { t, offset: number },
        Insn::LoadSp { t, .. } => Insn::LoadSp { t, offset: number },
        Insn::Adr { d, .. } => Insn::Adr { d, offset: number },
        Insn::AddSp { d, .. } => Insn::AddSp { d, offset: number },
        Insn::RaiseSp { .. } => Insn::RaiseSp { offset: number },
        Insn::LowerSp { .. } => Insn::LowerSp { offset: number },
        Insn::Bkpt { .. } => Insn::Bkpt { value: number },
        Insn::Hint { .. } => Insn::Hint { value: number },
        Insn::Svc { .. } => Insn::Svc { value: number },
        Insn::Fence { barrier, .. } => Insn::Fence {
            barrier,
            option: number,
        },
        Insn::AddsReg { .. }
        | Insn::SubsReg { .. }
        | Insn::Data { .. }
        | Insn::AddHigh { .. }
        | Insn::CmpHigh { .. }
        | Insn::MovHigh { .. }
        | Insn::Bx { .. }
        | Insn::Blx { .. }
        | Insn::StoreReg { .. }
        | Insn::LoadReg { .. }
        | Insn::Change { .. }
        | Insn::Push { .. }
        | Insn::Pop { .. }
        | Insn::Cpsie
        | Insn::Cpsid
        | Insn::Stm { .. }
        | Insn::Ldm { .. }
        | Insn::BranchIf { .. }
        | Insn::Branch { .. }
        | Insn::Bl { .. }
        | Insn::Mrs { .. }
        | Insn::Msr { .. } => insn,
    }
}

/// An instruction with another distance.
pub(crate) fn aim(insn: Insn, distance: i32) -> Insn
    ensures { result ≡ aim insn distance }
{
    match insn {
        Insn::BranchIf { cond, .. } => Insn::BranchIf {
            cond,
            offset: distance,
        },
        Insn::Branch { .. } => Insn::Branch { offset: distance },
        Insn::Bl { .. } => Insn::Bl { offset: distance },
        Insn::ShiftImm { .. }
        | Insn::AddsReg { .. }
        | Insn::SubsReg { .. }
        | Insn::AddsImm3 { .. }
        | Insn::SubsImm3 { .. }
        | Insn::MovsImm { .. }
        | Insn::CmpImm { .. }
        | Insn::AddsImm8 { .. }
        | Insn::SubsImm8 { .. }
        | Insn::Data { .. }
        | Insn::AddHigh { .. }
        | Insn::CmpHigh { .. }
        | Insn::MovHigh { .. }
        | Insn::Bx { .. }
        | Insn::Blx { .. }
        | Insn::LdrLiteral { .. }
        | Insn::StoreReg { .. }
        | Insn::LoadReg { .. }
        | Insn::StoreImm { .. }
        | Insn::LoadImm { .. }
        | Insn::StoreSp { .. }
        | Insn::LoadSp { .. }
        | Insn::Adr { .. }
        | Insn::AddSp { .. }
        | Insn::RaiseSp { .. }
        | Insn::LowerSp { .. }
        | Insn::Change { .. }
        | Insn::Push { .. }
        | Insn::Pop { .. }
        | Insn::Cpsie
        | Insn::Cpsid
        | Insn::Bkpt { .. }
        | Insn::Hint { .. }
        | Insn::Stm { .. }
        | Insn::Ldm { .. }
        | Insn::Svc { .. }
        | Insn::Fence { .. }
        | Insn::Mrs { .. }
        | Insn::Msr { .. } => insn,
    }
}

/// The instruction with this value, if the value is a number of 32 bits.
pub(crate) fn with_value(insn: Insn, value: i64) -> Result<Insn, Cause>
    ensures { Finds result (filled (fill insn) value) }
{
    match u32::try_from(value) {
        Ok(number) => Ok(fill(insn, number)),
        Err(_) => Err(Cause::OutOfRange),
    }
}

/// The instruction with this value, if the value is within its bounds.
pub(crate) fn with_bounded(insn: Insn, low: u32, top: u32, value: i64) -> Result<Insn, Cause>
    ensures { Finds result (within low top (fill insn) value) }
{
    match u32::try_from(value) {
        Ok(number) => if low <= number && number <= top {
            Ok(fill(insn, number))
        } else {
            Err(Cause::OutOfRange)
        },
        Err(_) => Err(Cause::OutOfRange),
    }
}

/// The instruction with this distance, if the distance is a signed number of 32 bits.
pub(crate) fn with_distance(insn: Insn, distance: i64) -> Result<Insn, Cause>
    ensures { Finds result (aimed (aim insn) distance) }
{
    match i32::try_from(distance) {
        Ok(number) => Ok(aim(insn, number)),
        Err(_) => Err(Cause::OutOfRange),
    }
}

fn cause_of(fit: Fit) -> Cause
    ensures { (i : Instruction) → fit_cause i (Some fit) ≡ Err result }
{
    match fit {
        Fit::Register => Cause::BadRegister,
        Fit::Offset => Cause::OutOfRange,
        Fit::Align => Cause::Misaligned,
    }
}

fn push_half(out: &mut Vec<u8>, half: u16) -> Result<(), Stop>
    ensures ok { OnOk result (out.new.items ≡ out.old.items ++ halfword half) }
    ensures err { IfErr result (λ e. (cause : Option Why) → Stops e cause) }
{
    match out.push((half % 256) as u8) {
        Ok(()) => {}
        Err(_) => return Err(Stop::Memory),
    }
    match out.push((half / 256) as u8) {
        Ok(()) => Ok(()),
        Err(_) => Err(Stop::Memory),
    }
}

/// The code of an instruction. It has as many bytes as the instruction's size.
fn code_of(insn: &Insn) -> Result<Code, Fit>
    ensures coded { IfOk result (λ c. (insn_of c ≡ Some insn.now) × IsCode c
        × (length (code_bytes c) ≡ insn_size insn.now)) }
    ensures fits { OnOk result (fit_of insn.now ≡ None) }
    ensures refused { IfErr result (λ f. fit_of insn.now ≡ Some f) }
{
    encode(insn)
}

fn push_code(out: &mut Vec<u8>, code: Code) -> Result<(), Stop>
    ensures ok { OnOk result (out.new.items ≡ out.old.items ++ code_bytes code) }
    ensures err { IfErr result (λ e. (cause : Option Why) → Stops e cause) }
{
    match code {
        Code::One(half) => push_half(out, half),
        Code::Two(first, second) => {
            match push_half(out, first) {
                Ok(()) => {}
                Err(_) => return Err(Stop::Memory),
            }
            push_half(out, second)
        }
    }
}

/// Whether the row of an instruction refuses its registers.
pub(crate) fn is_misfit(insn: &Insn) -> bool
    ensures { result ≡ is_register_fit (fit_of insn.now) }
{
    match code_of(insn) {
        Ok(_) => false,
        Err(fit) => match fit {
            Fit::Register => true,
            Fit::Offset => false,
            Fit::Align => false,
        },
    }
}

/// Appends the code of an instruction.
pub(crate) fn emit_insn(at: u32, insn: Insn, out: &mut Vec<u8>) -> Result<(), Stop>
    ensures ok { OnOk result (Coded insn at out.old.items out.new.items) }
    ensures err { IfErr result (λ e. Stops e (insn_cause at (fitting insn))) }
{
    if at % 2 != 0 {
        return Err(Stop::Cause(Cause::Misaligned));
    }
    match code_of(&insn) {
        Err(fit) => Err(Stop::Cause(cause_of(fit))),
        Ok(code) => push_code(out, code),
    }
}

/// Appends the code of an instruction that was found, or returns why there is none.
#[tactic(auto, using(crate::proofs::Coding::put_ok, crate::proofs::Coding::put_err))]
pub(crate) fn emit_found(at: u32, found: Result<Insn, Cause>, out: &mut Vec<u8>) -> Result<(), Stop>
    ensures ok { (r : Result Instruction Why) → Finds found r →
        OnOk result (Put r at out.old.items out.new.items) }
    ensures err { (r : Result Instruction Why) → Finds found r →
        IfErr result (λ e. Stops e (insn_cause at r)) }
{
    match found {
        Ok(insn) => emit_insn(at, insn, out),
        Err(cause) => if at % 2 != 0 {
            Err(Stop::Cause(Cause::Misaligned))
        } else {
            Err(Stop::Cause(cause))
        },
    }
}
