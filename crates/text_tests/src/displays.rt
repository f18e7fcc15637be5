//! How faults and errors are displayed.
//!
//! Layer: tests; private. Its tests are run by `rt test`.
use document_text::{DocFault, DocumentError};
use netkat_parser::{ParseError, parse_policy};
use nk_values::TextFault;
use std::test::Fail;
use topology_model::{LineError, TopoError};

#[test]
fn of_a_text(rt: HostRuntime) -> Result<(), Fail> {
    let alloc = rt.alloc();
    match parse_policy(alloc, b"pt=1 ?") {
        Err(error) => {
            let shown = format!(in alloc; "{error}")?;
            assert_eq!(rt; shown.as_str(), "line 1 column 6: 1 BadChar");
        }
        Ok(_) => assert!(rt; false, "it is read"),
    }
    let shown = format!(in alloc; "{}", ParseError::Memory)?;
    assert_eq!(rt; shown.as_str(), "out of memory");
    Ok(())
}

#[test]
fn of_a_document(rt: HostRuntime) -> Result<(), Fail> {
    let alloc = rt.alloc();
    let fault = DocFault {
        fault: TextFault::NoPolicy,
        line: 3,
        column: 1,
    };
    let shown = format!(in alloc; "{}", DocumentError::Fault(fault))?;
    assert_eq!(rt; shown.as_str(), "line 3 column 1: 9 NoPolicy");
    Ok(())
}

#[test]
fn of_a_topology(rt: HostRuntime) -> Result<(), Fail> {
    let alloc = rt.alloc();
    let line = format!(in alloc; "{}", LineError::Fault(TextFault::DupSwitch))?;
    assert_eq!(rt; line.as_str(), "31 DupSwitch");
    let topology = format!(in alloc; "{}", TopoError::Memory)?;
    assert_eq!(rt; topology.as_str(), "out of memory");
    Ok(())
}
