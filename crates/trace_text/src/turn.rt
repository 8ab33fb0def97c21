//! The lines of one turn.
ghost use Rattle.std.specs.Prelude.{◌≡◌, ◌≤◌, ◌/◌, length, decimal, Option, Some};
ghost use Rattle.trace_text.specs.Text.{line_of};
ghost use Rattle.trace_text.specs.Digits.{HasDigits};
ghost use Rattle.trace_text.specs.Fit.{IsFit, IsFitNote};

use crate::lines::line;
use crate::words::{push_decimal, push_two};
use arrayvec::ArrayString;
use kernel_abi::Note;

/// The lines of a turn, one after another in one buffer, which begins with the digits of the turn's
/// number. The digits are made once for the turn, and most of them serve the next turn too. They
/// are made in the buffer itself, because moving a buffer costs as much as a line.
#[derive(Drop)]
pub struct TurnLines {
    pub number: u32,
    text: ArrayString<160>,
    // the length of the digits, after which a line goes on; None before the first line
    begun: Option<usize>,
    ghost begun_of: { HasDigits number text.bytes begun },
    ghost small: { IsFit number },
}

impl TurnLines {
    ghost use Rattle.trace_text.specs.Turn.{last_line, begun_in};

    /// The lines of the turn with this number, before its first line.
    #[inline(always)]
    pub fn new(number: u32) -> TurnLines
        ensures { result.number ≡ number }
    {
        TurnLines {
            number,
            text: ArrayString::new(),
            begun: None,
        }
    }

    /// Replaces the last two digits.
    #[inline(always)]
    fn change_last_two(&mut self, begun: usize, number: u32)
        requires begun { begun_in self.old ≡ Some begun }
        requires hundreds { number / 100 ≡ self.old.number / 100 }
        requires long { 100 ≤ number }
        ensures digits { last_line self.new ≡ decimal number }
        ensures number { self.new.number ≡ number }
    {
        self.text.truncate(begun - 2);
        push_two(&mut self.text, number % 100);
        self.number = number;
    }

    #[inline(always)]
    fn begin_anew(&mut self, number: u32)
        ensures number { self.new.number ≡ number }
    {
        self.text.clear();
        self.begun = None;
        self.number = number;
    }

    /// Goes on to a turn, before its first line. Most often only the last two digits differ from
    /// those of the turn before.
    #[inline(always)]
    pub fn go_to(&mut self, number: u32)
        ensures number { self.new.number ≡ number }
    {
        match self.begun {
            Some(begun) => {
                if number >= 100 && number / 100 == self.number / 100 {
                    self.change_last_two(begun, number);
                } else {
                    self.begin_anew(number);
                }
            }
            None => self.begin_anew(number),
        }
    }

    /// Leaves only the digits of the number in the buffer.
    #[inline(always)]
    fn begin_line(&mut self)
        ensures digits { last_line self.new ≡ decimal self.old.number }
        ensures begun { begun_in self.new ≡ Some (length (decimal self.old.number)) }
        ensures number { self.new.number ≡ self.old.number }
    {
        match self.begun {
            Some(begun) => self.text.truncate(begun),
            None => {
                push_decimal(&mut self.text, u64::from(self.number));
                self.begun = Some(self.text.len());
            }
        }
    }

    /// Replaces the last line by the line of a note, with its LF. A code that is not an instruction
    /// has no text.
    #[inline(always)]
    pub fn write(&mut self, note: &Note)
        ensures line { last_line self.new ≡ line_of self.old.number note.now }
        ensures number { self.new.number ≡ self.old.number }
        ensures turn { IsFit self.old.number }
        ensures fit { IsFitNote note.now }
    {
        self.begin_line();
        line(note, &mut self.text);
    }

    /// The line that was written last.
    #[inline(always)]
    pub fn text(&self) -> &str
        ensures line { result.now ≡ last_line self.now }
        ensures len { length result.now ≤ 160 }
    {
        self.text.as_str()
    }
}
