//! Images that are written and read back, and texts that are none.
use image_text::{ImageFault, ImageStop, freeze, read_image};
use pico_base::{Event, Node};
use stamp_merge::Stamped;
use std::alloc::Global;
use std::test::*;

/// The first node runs, the second takes a frame from it, and the first runs again.
fn runs() -> [Stamped<Event>; 3] {
    let (first, second) = (Node(1), Node(2));
    let take = Event::Take {
        node: second,
        from: first,
    };
    [
        stamped(1, first, Event::Run(first)),
        stamped(2, second, take),
        stamped(3, first, Event::Run(first)),
    ]
}

fn stamped(stamp: u64, node: Node, item: Event) -> Stamped<Event> {
    Stamped { stamp, node, item }
}

#[test]
fn events_stand_by_node(rt: HostRuntime) -> Result<(), Fail> {
    let image = freeze(rt.alloc(), b"proc a\ngetpid\nend", &runs())?;
    let text = b"proc a\ngetpid\nend\nimage 3\n1 1 run\n3 1 run\n2 2 take 1\n";
    assert!(rt; image.as_slice() == text.as_slice());
    Ok(())
}

fn stop(alloc: Global, image: &[u8]) -> ImageStop {
    match read_image(alloc, image) {
        Ok(_) => ImageStop::Memory,
        Err(stop) => stop,
    }
}

fn outside(line: u32) -> ImageStop {
    ImageStop::At {
        line,
        fault: ImageFault::NotAnImage,
    }
}

// The lines of the events of an image of two blocks.
fn lines_of_events(alloc: Global, image: &[u8]) -> Result<Vec<u32>, Fail> {
    let said = read_image(alloc, image)?;
    if said.script.blocks.len() != 2 {
        return Err("other blocks".into());
    }
    let mut lines = Vec::new(alloc);
    for event in said.events.as_slice() {
        lines.push(event.item.line)?;
    }
    Ok(lines)
}

#[test]
fn what_was_frozen_is_read(rt: HostRuntime) -> Result<(), Fail> {
    let text = b"proc a\nfork b\nend\nproc b\nend\nimage 3\n1 1 run\n3 1 run\n2 2 take 1\n";
    let lines = lines_of_events(rt.alloc(), text)?;
    assert!(rt; lines.as_slice() == [7, 9, 8].as_slice());
    Ok(())
}

// Texts that are no images, and the lines at which they aren't.
static NO_IMAGES: [(&[u8], u32); 7] = [
    (b"proc a\nend\nimage 1\n", 4),
    (b"proc a\nend\nimage  0\n", 3),
    (b"proc a\nend\nimage 0\n\n", 4),
    (b"proc a\nend\n", 3),
    (b"proc a\nend\nimage 99999999999999999999\n1 1 run", 5),
    (b"proc a\nend\nimage 1\n9223372036854775808 1 run", 4),
    (b"proc a\nend\nimage 1\n1 2 run", 4),
];

#[test]
fn texts_that_are_no_images(rt: HostRuntime) {
    for (text, line) in &NO_IMAGES {
        assert!(rt; stop(rt.alloc(), text) == outside(*line), "{line}");
    }
}

#[test]
fn stamps_rise(rt: HostRuntime) {
    let falls = ImageStop::At {
        line: 5,
        fault: ImageFault::NotRising,
    };
    assert!(rt; stop(rt.alloc(), b"proc a\nend\nimage 2\n1 1 run\n1 1 run") == falls);
}
