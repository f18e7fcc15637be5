//! Documents: the most policies, and the most bytes.
//!
//! Layer: tests; private. Its tests are run by `rt test`.
use document_text::{DocReader, Document, DocumentError, read_document};
use nk_values::{MOST_DOCUMENT_BYTES, TextFault};
use std::alloc::{AllocError, Global};
use std::test::Fail;

// The fault of a document and its line; none has out of memory.
fn refused(answer: Result<Document, DocumentError>) -> Option<(TextFault, u64)> {
    match answer {
        Ok(_) => None,
        Err(DocumentError::Fault(it)) => Some((it.fault, it.line)),
        Err(DocumentError::Memory) => Some((TextFault::BadChar, 0)),
    }
}

// A switch, 64 policies of three lines, and then this.
fn many_policies(alloc: Global, last: &str) -> Result<Option<(TextFault, u64)>, AllocError> {
    let mut text = "switch 1 ports 1 2\n".to_string(alloc)?;
    for _ in 0..64 {
        text.push_str("policy\nskip\nend\n")?;
    }
    text.push_str(last)?;
    Ok(refused(read_document(alloc, text.as_bytes())))
}

#[test]
fn at_most_64_policies(rt: HostRuntime) -> Result<(), Fail> {
    let whole = many_policies(rt.alloc(), "")?;
    assert_eq!(rt; whole, None);
    let more = many_policies(rt.alloc(), "policy and more")?;
    assert_eq!(rt; more, Some((TextFault::Limit, 194)));
    Ok(())
}

// A document of a number of bytes: a comment, and a document of four lines after it.
fn long(alloc: Global, len: usize) -> Result<Vec<u8>, AllocError> {
    let end = b"\nswitch 1 ports 1\npolicy\nskip\nend\n";
    let mut text = Vec::new(alloc);
    for _ in end.len()..len {
        text.push(b'#')?;
    }
    for byte in end {
        text.push(*byte)?;
    }
    Ok(text)
}

// The fault of a document that comes in pieces of one size, and its line.
fn in_pieces(
    alloc: Global,
    text: &[u8],
    most: usize,
) -> Result<Option<(TextFault, u64)>, AllocError> {
    let mut reader = DocReader::new(alloc);
    for piece in text.chunks(most.max(1)) {
        reader.feed(alloc, piece)?;
    }
    Ok(refused(reader.finish(alloc)))
}

#[test]
fn at_most_so_many_bytes(rt: HostRuntime) -> Result<(), Fail> {
    let whole = long(rt.alloc(), MOST_DOCUMENT_BYTES)?;
    assert_eq!(rt; refused(read_document(rt.alloc(), &whole)), None);
    assert_eq!(rt; in_pieces(rt.alloc(), &whole, 1)?, None);
    assert_eq!(rt; in_pieces(rt.alloc(), &whole, 4096)?, None);
    let more = long(rt.alloc(), MOST_DOCUMENT_BYTES + 1)?;
    let limit = Some((TextFault::Limit, 5));
    assert_eq!(rt; refused(read_document(rt.alloc(), &more)), limit);
    assert_eq!(rt; in_pieces(rt.alloc(), &more, 1)?, limit);
    assert_eq!(rt; in_pieces(rt.alloc(), &more, 4096)?, limit);
    Ok(())
}
