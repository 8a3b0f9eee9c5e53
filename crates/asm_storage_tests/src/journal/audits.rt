//! Audits of inputs that fail.
use asm_aggregate::standard;
use asm_audit::{AuditError, AuditInputError, Counts, audit};
use asm_journal::JournalError;
use std::alloc::Global;
use std::io;
use std::io::{ErrorKind, Read};
use std::test::Fail;

/// An input that gives a text and then fails.
#[derive(Drop)]
struct BrokenOff<'a> {
    text: &'a [u8],
}

impl Read for BrokenOff<'_> {
    fn read(&mut self, buffer: &mut [u8]) -> io::Result<usize> {
        if self.text.is_empty() {
            return Err(io::Error::from(ErrorKind::Other));
        }
        let count = buffer.len().min(self.text.len());
        for i in 0..count {
            buffer[i] = self.text[i];
        }
        self.text = &self.text[count..];
        Ok(count)
    }
}

/// Return how the audit of an input ends that gives this text and then fails.
fn reported_of_broken_off(alloc: Global, text: &str) -> Result<Counts, AuditInputError> {
    audit(
        alloc,
        standard(),
        &mut BrokenOff {
            text: text.as_bytes(),
        },
    )
}

/// Texts, some wrong or at fault, with how an audit ends if the read after them fails.
static BROKEN_OFF: [(&str, Result<Counts, AuditInputError>); 5] = [
    ("", Err(AuditInputError::Input)),
    (
        r#"{"agents":1,"capacity":2,"events":3,"init":[[["x"],7]],"version":2}
{"agent":0,"call":{"read":[["x"]]},"reply":{"number":0,"values":[6]}}
"#,
        Err(AuditInputError::Audit(AuditError::Illegal { part: 0, call: 0 })),
    ),
    (
        r#"{"agents":1,"capacity":2,"events":3,"init":[],"version":2}
nothing
"#,
        Err(AuditInputError::Audit(AuditError::Journal {
            part: 0,
            fault: JournalError::NotJson(2),
        })),
    ),
    (
        r#"{"agents":1,"capacity":2,"events":0,"init":[],"version":2}
{"agents":1,"capacity":2,"events":0,"init":[[["x"],7]],"version":2}
"#,
        Err(AuditInputError::Audit(AuditError::Apart { part: 1 })),
    ),
    (
        r#"{"agents":1,"capacity":2,"events":1,"init":[[["x"],7]],"version":2}
{"agent":0,"call":{"read":[["x"]]},"reply":{"number":0,"values":[7]}}
"#,
        Err(AuditInputError::Input),
    ),
];

#[test]
fn what_is_wrong_is_reported_before_the_end_of_the_input(rt: HostRuntime) -> Result<(), Fail> {
    for (text, wanted) in BROKEN_OFF.iter() {
        let reported = reported_of_broken_off(rt.alloc(), text);
        if reported == Err(AuditInputError::Audit(AuditError::Memory)) {
            return Err(Fail::from(std::alloc::AllocError));
        }
        assert!(rt; reported == *wanted, "{text}");
    }
    Ok(())
}
