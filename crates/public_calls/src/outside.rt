//! `cg_out`: bytes, lists and boxes, and the files and the sink in memory.
use cg_out::*;
use std::alloc::Global;
use std::test::Fail;

/// A type that leads back to itself through a list and through a box.
#[derive(Debug, Drop)]
enum Tree {
    Leaf(Text),
    Node(List<Tree>),
    Over(Boxed<Tree>),
}

const TEXTS: &[&[u8]] = &[
    b"",
    b"fourteen_bytes",
    b"fifteen__bytes!",
    b"a name that is longer than any text with room in itself",
];

#[test]
fn lists_boxes_and_texts(rt: HostRuntime) -> Result<(), Fail> {
    let alloc = rt.alloc();
    let mut children = List::new(alloc);
    children.push(Tree::Leaf(Text::copy_of(alloc, b"a")?))?;
    children.push(Tree::Over(Boxed::new(alloc, Tree::Node(List::new(alloc)))?))?;
    let tree = Tree::Node(children);
    let Tree::Node(children) = &tree else {
        return Err("the node stays a node")?;
    };
    let [Tree::Leaf(first), Tree::Over(second)] = children.items() else {
        return Err("the children stand in order")?;
    };
    assert_eq!(rt; first.bytes(), b"a".as_slice());
    assert!(rt; matches!(second.get(), Tree::Node(_)));
    assert_eq!(rt; Boxed::new(alloc, 7u32)?.into_inner(), 7);
    for &bytes in TEXTS {
        assert_eq!(rt; Text::copy_of(alloc, bytes)?.bytes(), bytes);
    }
    Ok(())
}

fn entry(alloc: Global, name: &[u8], bytes: &[u8]) -> Result<Entry, Memory> {
    Ok(Entry {
        name: Text::copy_of(alloc, name)?,
        bytes: Text::copy_of(alloc, bytes)?,
    })
}

const WRITES: &[(&[u8], &[u8], Result<(), Failed>, Option<&[u8]>)] = &[
    (b"b", b"wxyz", Err(Failed), Some(b"wx")),
    // five bytes in room for four
    (b"c", b"1234", Err(Failed), None),
    (b"c", b"123", Ok(()), Some(b"123")),
];

#[test]
fn files_in_memory(rt: HostRuntime) -> Result<(), Fail> {
    let alloc = rt.alloc();
    let mut entries = Vec::new(alloc);
    entries.push(entry(alloc, b"a", b"old")?)?;
    entries.push(entry(alloc, b"a", b"12345")?)?;
    let failing = [Failing { call: 3, keep: 2 }, Failing { call: 3, keep: 9 }];
    let mut files = MemoryFiles::new(alloc, &entries, 9, &failing)?;
    let mut into = Vec::from_slice(alloc, b">")?;
    assert_eq!(rt; files.read(b"a", 2, &mut into), Ok(()));
    assert_eq!(rt; into.as_slice(), b">123".as_slice());
    assert_eq!(rt; files.read(b"b", 2, &mut into), Err(ReadFault::Absent));
    for &(name, bytes, answer, left) in WRITES {
        assert_eq!(rt; files.write(name, bytes), answer);
        assert_eq!(rt; files.file(name), left);
    }
    Ok(())
}

const SINK_WRITES: &[(&[u8], Result<(), Failed>, &[u8])] = &[
    (b"abc", Ok(()), b"abc"),
    (b"def", Err(Failed), b"abcd"),
    // three bytes in room for two
    (b"ghi", Err(Failed), b"abcd"),
    (b"jk", Ok(()), b"abcdjk"),
];

#[test]
fn sink_in_memory(rt: HostRuntime) -> Result<(), Fail> {
    let failing = [Failing { call: 2, keep: 1 }];
    let mut sink = MemorySink::new(rt.alloc(), 8, &failing)?;
    for &(bytes, answer, written) in SINK_WRITES {
        assert_eq!(rt; sink.write(bytes), answer);
        assert_eq!(rt; sink.bytes(), written);
    }
    sink.explain(b"a.c", 1, Some(2), "a reason");
    assert_eq!(rt; sink.bytes(), b"abcdjk".as_slice());
    Ok(())
}
