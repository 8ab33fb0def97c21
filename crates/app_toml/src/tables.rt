//! The keys of each table, in order of reading, with their limits: docs/FORMATS.md, Application.

use crate::forms::ValueForm;
use crate::keys::Key;

pub(crate) static BOARD_KEYS: [Key; 2] = [
    Key {
        name: "flash",
        is_needed: true,
        form: ValueForm::Number(256, 1_048_576),
    },
    Key {
        name: "ram",
        is_needed: true,
        form: ValueForm::Number(256, 262_144),
    },
];

pub(crate) static SUPERVISOR_KEYS: [Key; 1] = [Key {
    name: "fault",
    is_needed: true,
    form: ValueForm::Name,
}];

pub(crate) static TASK_KEYS: [Key; 10] = [
    Key {
        name: "name",
        is_needed: true,
        form: ValueForm::Name,
    },
    Key {
        name: "source",
        is_needed: true,
        form: ValueForm::Filled,
    },
    Key {
        name: "priority",
        is_needed: true,
        form: ValueForm::Number(0, 255),
    },
    Key {
        name: "start",
        is_needed: false,
        form: ValueForm::Flag,
    },
    Key {
        name: "flash",
        is_needed: true,
        form: ValueForm::Number(1, 1_048_576),
    },
    Key {
        name: "ram",
        is_needed: true,
        form: ValueForm::Number(1, 262_144),
    },
    Key {
        name: "stack",
        is_needed: true,
        form: ValueForm::Number(0, 262_144),
    },
    Key {
        name: "notifications",
        is_needed: false,
        form: ValueForm::Names,
    },
    Key {
        name: "uses",
        is_needed: false,
        form: ValueForm::Names,
    },
    Key {
        name: "reads",
        is_needed: false,
        form: ValueForm::Names,
    },
];

pub(crate) static REGION_KEYS: [Key; 2] = [
    Key {
        name: "name",
        is_needed: true,
        form: ValueForm::Name,
    },
    Key {
        name: "size",
        is_needed: true,
        form: ValueForm::Number(1, 262_144),
    },
];

pub(crate) static DEVICE_KEYS: [Key; 3] = [
    Key {
        name: "name",
        is_needed: true,
        form: ValueForm::Name,
    },
    Key {
        name: "base",
        is_needed: true,
        form: ValueForm::Number(0, 4_294_967_295),
    },
    Key {
        name: "size",
        is_needed: true,
        form: ValueForm::Number(256, 536_870_912),
    },
];

pub(crate) static INTERRUPT_KEYS: [Key; 4] = [
    Key {
        name: "line",
        is_needed: true,
        form: ValueForm::Number(0, 63),
    },
    Key {
        name: "task",
        is_needed: true,
        form: ValueForm::Name,
    },
    Key {
        name: "notification",
        is_needed: true,
        form: ValueForm::Name,
    },
    Key {
        name: "device",
        is_needed: false,
        form: ValueForm::Name,
    },
];
