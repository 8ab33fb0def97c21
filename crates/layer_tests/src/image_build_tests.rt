//! Tests the builder: a source that is refused and is then replaced by another one, and sources
//! that are added all at once or one by one. The bytes of built images are tested by stored rows
//! (crates/stored_runs).

use app_toml::App;
use image_build::{Builder, build};
use std::alloc::{AllocError, Global};
use std::test::Fail;

const ONE: &str = "[board]
flash = 65536
ram = 16384
[supervisor]
fault = \"fault\"
[[task]]
name = \"sup\"
source = \"sup.s\"
priority = 0
flash = 256
ram = 256
stack = 64
notifications = [\"fault\"]
";

/// The bytes of the image before the zeros at its end.
const ONE_IMAGE: [u8; 74] = [
    0x48, 0x42, 0x49, 0x32, 1, 0, 0, 0, 2, 0, 0, 0, 0, 1, 0, 0, 0, 1, 0, 0, 1, 0, 0, 0, 6, 0, 0, 0,
    0, 1, 2, 1, 1, 0, 0, 8, 0x40, 0, 0, 0x20, 0, 0, 0, 8, 0, 1, 0, 0, 5, 0, 0, 0, 0, 0, 0, 0x20, 0,
    1, 0, 0, 3, 0, 0, 0, 5, b'f', b'a', b'u', b'l', b't', 1, 0x20, 0xFE, 0xE7,
];

const LOOP: &[u8] = b" movs r0, #1\nhere: b here\n";

#[test]
fn a_refused_source_may_be_followed_by_another(rt: HostRuntime) {
    let app = App::read(rt.alloc(), ONE.as_bytes()).expect(&rt, "a description");
    let mut builder = Builder::open(rt.alloc(), &app).expect(&rt, "a builder");
    assert!(rt; builder.next() < app.tasks().len());
    assert!(rt; builder.source(b".space 257").is_err());
    assert!(rt; builder.next() < app.tasks().len());
    assert!(rt; builder.source(LOOP).is_ok());
    assert!(rt; builder.next() == app.tasks().len());
    let image = builder.finish().expect(&rt, "an image");
    let bytes = image.write().expect(&rt, "its bytes");
    assert!(rt; bytes.as_slice().get(..74) == Some(ONE_IMAGE.as_slice()));
}

/// Three tasks. In every source `note_last_go` is a notification of the third task. In the second
/// task's source it is a notification of the second task too.
const THREE: &str = "[board]
flash = 65536
ram = 16384
[supervisor]
fault = \"fault\"
[[task]]
name = \"sup\"
source = \"sup.s\"
priority = 0
flash = 256
ram = 256
stack = 64
notifications = [\"fault\"]
[[task]]
name = \"one\"
source = \"one.s\"
priority = 1
flash = 256
ram = 256
stack = 64
notifications = [\"go\", \"last_go\"]
[[task]]
name = \"last\"
source = \"last.s\"
priority = 2
flash = 256
ram = 256
stack = 64
notifications = [\"go\", \"stop\", \"wake\"]
";

const SOURCES: [&[u8]; 3] = [
    b".word note_last_go\n",
    b".word note_last_wake, task_last, note_last_go\n",
    b".word note_last_go\n",
];

fn copies(alloc: Global) -> Result<Vec<Vec<u8>>, AllocError> {
    let mut copies = Vec::new(alloc);
    for source in &SOURCES {
        let mut copy = Vec::new(alloc);
        copy.extend_from_slice(source)?;
        copies.push(copy)?;
    }
    Ok(copies)
}

#[test]
fn sources_at_once_and_one_by_one(rt: HostRuntime) -> Result<(), Fail> {
    let app = App::read(rt.alloc(), THREE.as_bytes()).expect(&rt, "a description");
    let mut builder = Builder::open(rt.alloc(), &app).expect(&rt, "a builder");
    assert!(rt; builder.next() < app.tasks().len());
    assert!(rt; builder.source(SOURCES[0]).is_ok());
    assert!(rt; builder.next() < app.tasks().len());
    assert!(rt; builder.source(SOURCES[1]).is_ok());
    assert!(rt; builder.next() < app.tasks().len());
    assert!(rt; builder.source(SOURCES[2]).is_ok());
    assert!(rt; builder.next() == app.tasks().len());
    let image = builder.finish().expect(&rt, "an image");
    let bytes = image.write().expect(&rt, "its bytes");
    let sources = copies(rt.alloc())?;
    assert!(rt; sources.len() == app.tasks().len());
    let built = build(rt.alloc(), &app, sources.as_slice()).expect(&rt, "an image");
    let same = built.write().expect(&rt, "its bytes");
    assert!(rt; same.as_slice() == bytes.as_slice());
    Ok(())
}
