//! The forms of lines, as tables. A new form is one more row.
ghost use Rattle.std.specs.Prelude.{◌≡◌, option_map, false};
ghost use Rattle.trace_audit.specs.Fields.{are_of, has_text, are_over, ends_with_text, form_named, is_rest};
ghost use Rattle.trace_audit.specs.Views.{words_left, form_in, forms_in};

use crate::fields::is_same;
use crate::pieces::Words;

/// What a word of a line may be (docs/FORMATS.md, Trace).
#[derive(Clone, Copy)]
pub enum Field {
    /// A decimal number below 2^32, without leading zeros.
    Number,
    /// A decimal number below 2^64, without leading zeros.
    Time,
    /// Eight hexadecimal digits, in lower case.
    Word,
    /// Thirty-two hexadecimal digits, in lower case.
    Row,
    /// Four or eight hexadecimal digits, in lower case.
    Code,
    /// Two hexadecimal digits, in lower case.
    Byte,
    /// Four digits 0 or 1.
    Flags,
    /// What an interrupt did.
    Handled,
    /// What happened to a byte for a device.
    Fed,
    /// Whose message a task listens for.
    Listened,
    /// Why a call was closed.
    Ending,
    /// What a borrow did with a lease.
    Borrow,
    /// How a run ended.
    End,
    /// The health of a task.
    Health,
    /// What a task waits for.
    Wait,
    /// The timer of a task.
    Timer,
}

/// What a line means for an audit.
#[derive(Clone, Copy)]
pub enum LineKind {
    /// It says nothing about calls.
    Plain,
    /// It says nothing about calls, and ends with the text of an instruction.
    Insn,
    /// A call is offered.
    Offer,
    /// A call is taken.
    Take,
    /// A call is closed.
    Close,
    /// A borrow uses a lease.
    Borrow,
    /// The state of a task, after the end of the turns.
    Task,
}

/// The form of a line: its name, what it means, and the words after the name.
#[derive(Clone, Copy)]
pub(crate) struct LineForm {
    pub(crate) name: &'static [u8],
    pub(crate) kind: LineKind,
    pub(crate) fields: &'static [Field],
}

/// The lines of a turn, after its number.
pub(crate) const TURN_FORMS: &[LineForm] = &[
    LineForm {
        name: b"tick",
        kind: LineKind::Plain,
        fields: &[Field::Time],
    },
    LineForm {
        name: b"irq",
        kind: LineKind::Plain,
        fields: &[Field::Number, Field::Handled],
    },
    LineForm {
        name: b"post",
        kind: LineKind::Plain,
        fields: &[Field::Number, Field::Word, Field::Word],
    },
    LineForm {
        name: b"call",
        kind: LineKind::Plain,
        fields: &[
            Field::Number,
            Field::Number,
            Field::Word,
            Field::Word,
            Field::Word,
            Field::Word,
            Field::Word,
            Field::Word,
            Field::Word,
        ],
    },
    LineForm {
        name: b"offer",
        kind: LineKind::Offer,
        fields: &[Field::Number, Field::Number, Field::Number],
    },
    LineForm {
        name: b"take",
        kind: LineKind::Take,
        fields: &[Field::Number, Field::Number],
    },
    LineForm {
        name: b"listen",
        kind: LineKind::Plain,
        fields: &[Field::Number, Field::Listened, Field::Word],
    },
    LineForm {
        name: b"borrow",
        kind: LineKind::Borrow,
        fields: &[
            Field::Number,
            Field::Borrow,
            Field::Number,
            Field::Number,
            Field::Number,
        ],
    },
    LineForm {
        name: b"ret",
        kind: LineKind::Plain,
        fields: &[
            Field::Number,
            Field::Word,
            Field::Word,
            Field::Word,
            Field::Word,
            Field::Word,
            Field::Word,
        ],
    },
    LineForm {
        name: b"close",
        kind: LineKind::Close,
        fields: &[Field::Number, Field::Ending],
    },
    LineForm {
        name: b"fault",
        kind: LineKind::Plain,
        fields: &[Field::Number, Field::Number, Field::Word, Field::Word],
    },
    LineForm {
        name: b"restart",
        kind: LineKind::Plain,
        fields: &[Field::Number, Field::Number],
    },
    LineForm {
        name: b"in",
        kind: LineKind::Plain,
        fields: &[Field::Number, Field::Byte, Field::Fed],
    },
    LineForm {
        name: b"out",
        kind: LineKind::Plain,
        fields: &[Field::Number, Field::Byte],
    },
    LineForm {
        name: b"irqstat",
        kind: LineKind::Plain,
        fields: &[Field::Number, Field::Word, Field::Number],
    },
    LineForm {
        name: b"find",
        kind: LineKind::Plain,
        fields: &[Field::Number, Field::Number],
    },
    LineForm {
        name: b"insn",
        kind: LineKind::Insn,
        fields: &[Field::Number, Field::Word, Field::Code],
    },
    LineForm {
        name: b"idle",
        kind: LineKind::Plain,
        fields: &[],
    },
    LOW,
    HIGH,
];

const LOW: LineForm = LineForm {
    name: b"low",
    kind: LineKind::Plain,
    fields: &[
        Field::Word,
        Field::Word,
        Field::Word,
        Field::Word,
        Field::Word,
        Field::Word,
        Field::Word,
        Field::Word,
    ],
};

const HIGH: LineForm = LineForm {
    name: b"high",
    kind: LineKind::Plain,
    fields: &[
        Field::Word,
        Field::Word,
        Field::Word,
        Field::Word,
        Field::Word,
        Field::Word,
        Field::Word,
        Field::Word,
        Field::Flags,
    ],
};

/// The lines after the end of the turns.
pub(crate) const LAST_FORMS: &[LineForm] = &[
    LineForm {
        name: b"task",
        kind: LineKind::Task,
        fields: &[
            Field::Number,
            Field::Number,
            Field::Health,
            Field::Wait,
            Field::Word,
            Field::Timer,
        ],
    },
    LOW,
    HIGH,
    LineForm {
        name: b"mem",
        kind: LineKind::Plain,
        fields: &[Field::Word, Field::Number],
    },
];

/// The line that ends the turns.
pub(crate) const END_FORMS: &[LineForm] = &[LineForm {
    name: b"end",
    kind: LineKind::Plain,
    fields: &[Field::End, Field::Number, Field::Time],
}];

/// The line of the bytes at an address.
pub(crate) const ROW_FIELDS: &[Field] = &[Field::Word, Field::Row];

impl LineKind {
    /// Whether the text of an instruction comes after the fields.
    pub(crate) fn ends_with_text(self) -> bool
        ensures { result ≡ ends_with_text self }
    {
        match self {
            LineKind::Insn => true,
            LineKind::Plain
            | LineKind::Offer
            | LineKind::Take
            | LineKind::Close
            | LineKind::Borrow
            | LineKind::Task => false,
        }
    }
}

/// The form with this name.
pub(crate) fn form_named(mut forms: &[LineForm], name: &[u8]) -> Option<LineForm>
    ensures { option_map form_in result ≡ form_named name.now (forms_in forms.entry.now) }
{
    while let [form, rest @ ..] = forms {
        if is_same(name, form.name) {
            return Some(*form);
        }
        forms = rest;
    }
    None
}

/// Whether the words are those of a text of at least one byte.
fn has_text(words: Words<'_>) -> bool
    ensures { result ≡ has_text (words_left words.entry) }
{
    let mut words = words;
    match words.next() {
        None => false,
        Some(word) => !word.is_empty() || words.next().is_some(),
    }
}

/// Whether no word is left.
fn are_over(words: Words<'_>) -> bool
    ensures { result ≡ are_over (words_left words.entry) }
{
    let mut words = words;
    words.next().is_none()
}

/// Whether the rest after the fields is right: a text, or nothing.
fn is_rest(text: bool, words: Words<'_>) -> bool
    ensures { result ≡ is_rest text (words_left words.entry) }
{
    if text {
        has_text(words)
    } else {
        are_over(words)
    }
}

/// Whether the words are right for these fields, and for the text after them if the form has one.
#[tactic(auto, unfolding(crate::specs::Fields::are_of))]
pub(crate) fn are_of(fields: &[Field], text: bool, words: Words<'_>) -> bool
    ensures { result ≡ are_of fields.now text (words_left words.entry) }
{
    let mut words = words;
    for field in fields {
        match words.next() {
            None => return false,
            Some(word) => {
                if !field.is_of(word) {
                    return false;
                }
            }
        }
    }
    is_rest(text, words)
}
