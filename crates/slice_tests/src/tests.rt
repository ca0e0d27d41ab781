// The whole call over devices in memory, whose reads and writes of some numbers fail: what is written then, and with what
// status. Where no device fails, cases/ has what is written, and the built program is run on it.
ghost use Rattle.std.specs.Prelude.{◌<◌};

mod texts;

use slice_io::{MemoryShelf, MemorySink, NamedFile};
use slice_top::{Status, top};
use std::alloc::{AllocError, Global};
use std::process::Abort;
use std::test::Fail;
use texts::{CC_GOAL, CC_LINES, FILES, HALF, HALF_LINE, Z_LINES};

// The words of a call.
fn words_of(alloc: Global, words: &[&str]) -> Result<Vec<String>, AllocError> {
    let mut list = Vec::new(alloc);
    for word in words {
        list.push(String::from_str(alloc, word)?)?;
    }
    Ok(list)
}

// The files, as a shelf holds them.
fn files(alloc: Global) -> Result<Vec<NamedFile>, AllocError> {
    let mut files = Vec::new(alloc);
    for (name, lines) in FILES {
        files.push(NamedFile {
            name: String::from_str(alloc, name)?,
            bytes: Vec::from_slice(alloc, lines.concat(alloc)?.as_bytes())?,
        })?;
    }
    Ok(files)
}

// The status and what is written over devices that give and take at most so many bytes at a time, and whose reads and
// writes of those numbers fail.
fn told(
    alloc: Global,
    words: &[&str],
    piece: usize,
    reads: &[u64],
    writes: &[u64],
) -> Result<(Status, Vec<u8>), Fail>
    requires { 0 < piece }
{
    let words = words_of(alloc, words)?;
    let mut shelf = MemoryShelf::new(files(alloc)?, piece, Vec::from_slice(alloc, reads)?);
    let mut sink = MemorySink::new(alloc, 9000, piece, Vec::from_slice(alloc, writes)?)?;
    let status = top(alloc, &words, &mut shelf, &mut sink);
    let out = Vec::from_slice(alloc, sink.bytes())?;
    Ok((status, out))
}

// One call of the program: the words, the numbers of the failing reads and writes, what is
// written, and the status.
type Row<'a> = (&'a [&'a str], &'a [u64], &'a [u64], &'a str, Status);

const ROWS: &[Row] = &[
    (
        &["check", "cc.slice"],
        &[1],
        &[],
        "{\"file\":\"cc.slice\",\"refused\":\"ReadFault\"}\n",
        Status::ReadFault,
    ),
    (&["check", "cc.slice"], &[], &[0], "", Status::WriteFault),
    (
        &["print", "half.slice"],
        &[0],
        &[],
        "{\"file\":\"half.slice\",\"refused\":\"ReadFault\"}\n",
        Status::ReadFault,
    ),
    (
        &["run", "half.slice", "v.json"],
        &[0],
        &[],
        "{\"file\":\"half.slice\",\"refused\":\"ReadFault\"}\n",
        Status::ReadFault,
    ),
    (
        &["run", "half.slice", "v.json"],
        &[],
        &[0],
        "",
        Status::WriteFault,
    ),
    (
        &["paths", "cc.slice"],
        &[0],
        &[],
        "{\"file\":\"cc.slice\",\"refused\":\"ReadFault\"}\n",
        Status::ReadFault,
    ),
    (&["paths", "cc.slice"], &[], &[0], "", Status::WriteFault),
    (
        &["paths", "cc.slice"],
        &[],
        &[1],
        CC_GOAL,
        Status::WriteFault,
    ),
    // No file is asked for.
    (
        &["demo", "1"],
        &[0],
        &[],
        "{\"accepted\":true,\"agents\":2,\"bytes\":375,\"goals\":6,\"protocol\":\"rounds\"}\n",
        Status::Good,
    ),
];

#[test]
fn a_failed_device_is_told(rt: HostRuntime) -> Result<(), Fail> {
    for (words, reads, writes, wanted, status) in ROWS {
        let (got, out) = told(rt.alloc(), words, 5000, reads, writes)?;
        assert_eq!(rt; got, *status, "{wanted}");
        assert!(rt; out.as_slice() == wanted.as_bytes(), "{wanted}");
    }
    Ok(())
}

const HALF_RUN: &[&str] = &["run", "half.slice", "v.json"];

// The protocol has 86 bytes and the valuations have 55; each file is read until a read gives none.
#[test]
fn a_failed_read_names_its_file(rt: HostRuntime) -> Result<(), Fail> {
    let alloc = rt.alloc();
    for (piece, of_protocol, of_values) in [(1usize, 87u64, 56u64), (2, 44, 29), (7, 14, 9)] {
        for call in 0..of_protocol + of_values {
            let (status, out) = told(alloc, HALF_RUN, piece, &[call], &[])?;
            let wanted = if call < of_protocol {
                "{\"file\":\"half.slice\",\"refused\":\"ReadFault\"}\n"
            } else {
                "{\"file\":\"v.json\",\"refused\":\"ReadFault\"}\n"
            };
            assert_eq!(rt; status, Status::ReadFault, "{piece} {call}");
            assert!(rt; out.as_slice() == wanted.as_bytes(), "{piece} {call}");
        }
        let (status, out) = told(alloc, HALF_RUN, piece, &[of_protocol + of_values], &[])?;
        assert_eq!(rt; status, Status::Good, "{piece}");
        assert!(rt; out.as_slice() == HALF_LINE.as_bytes(), "{piece}");
    }
    Ok(())
}

// The line has 184 bytes.
#[test]
fn a_failed_write_leaves_what_was_taken_before(rt: HostRuntime) -> Result<(), Fail> {
    let alloc = rt.alloc();
    for (piece, calls) in [(1usize, 184u64), (2, 92), (7, 27)] {
        for call in 0..calls {
            let (status, out) = told(alloc, HALF_RUN, piece, &[], &[call])?;
            assert_eq!(rt; status, Status::WriteFault, "{piece} {call}");
            assert_eq!(rt; out.len(), piece * call as usize, "{piece} {call}");
            assert!(rt;
                HALF_LINE.as_bytes().starts_with(out.as_slice()),
                "{piece} {call}"
            );
        }
        let (status, out) = told(alloc, HALF_RUN, piece, &[], &[calls])?;
        assert_eq!(rt; status, Status::Good, "{piece}");
        assert!(rt; out.as_slice() == HALF_LINE.as_bytes(), "{piece}");
    }
    Ok(())
}

// Each line of a report is written by one call: where one fails, the lines before it are out.
#[test]
fn lines_before_a_failed_write_are_out(rt: HostRuntime) -> Result<(), Fail> {
    let alloc = rt.alloc();
    let print: &[&str] = &["print", "half.slice"];
    let verify: &[&str] = &["verify", "cc.slice"];
    let upgrade: &[&str] = &["upgrade", "z.slice", "z.cert"];
    for (words, lines) in [(print, HALF), (verify, CC_LINES), (upgrade, Z_LINES)] {
        for k in 0..lines.len() {
            let (status, out) = told(alloc, words, 5000, &[], &[k as u64])?;
            assert_eq!(rt; status, Status::WriteFault, "{k}");
            assert!(rt;
                out.as_slice() == lines[..k].concat(alloc)?.as_bytes(),
                "{k}"
            );
        }
        let (status, out) = told(alloc, words, 5000, &[], &[lines.len() as u64])?;
        assert_eq!(rt; status, Status::Good);
        assert!(rt; out.as_slice() == lines.concat(alloc)?.as_bytes());
    }
    Ok(())
}

const CC_FAULT: &str = "{\"file\":\"cc.slice\",\"refused\":\"ReadFault\"}\n";

const CC_CERT_FAULT: &str = "{\"file\":\"cc.cert\",\"refused\":\"ReadFault\"}\n";

const CC_ACCEPTED: &str = "{\"accepted\":true,\"goals\":6}\n";

const Z_FAULT: &str = "{\"file\":\"z.slice\",\"refused\":\"ReadFault\"}\n";

const Z_CERT_FAULT: &str = "{\"file\":\"z.cert\",\"refused\":\"ReadFault\"}\n";

// A file is read by two calls, of which the second tells its end; a certificate's second read comes after all its lines.
#[test]
fn a_failed_read_of_a_certificate_names_its_file(rt: HostRuntime) -> Result<(), Fail> {
    let alloc = rt.alloc();
    let certify: &[&str] = &["certify", "cc.slice", "cc.cert"];
    let upgrade: &[&str] = &["upgrade", "z.slice", "z.cert"];
    for (words, read, written, line, status) in [
        (certify, 0u64, 0usize, CC_FAULT, Status::ReadFault),
        (certify, 1, 0, CC_FAULT, Status::ReadFault),
        (certify, 2, 0, CC_CERT_FAULT, Status::ReadFault),
        (certify, 3, 0, CC_CERT_FAULT, Status::ReadFault),
        (certify, 4, 0, CC_ACCEPTED, Status::Good),
        (upgrade, 1, 0, Z_FAULT, Status::ReadFault),
        (upgrade, 2, 0, Z_CERT_FAULT, Status::ReadFault),
        (upgrade, 3, 4, Z_CERT_FAULT, Status::ReadFault),
    ] {
        let (got, out) = told(alloc, words, 5000, &[read], &[])?;
        let mut wanted = Z_LINES[..written].concat(alloc)?;
        wanted.push_str(line)?;
        assert_eq!(rt; got, status, "{read} {line}");
        assert!(rt; out.as_slice() == wanted.as_bytes(), "{read} {line}");
    }
    Ok(())
}
