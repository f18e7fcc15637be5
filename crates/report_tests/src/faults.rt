//! The lines of faults that no document has. (Those of documents and policies are cases of the program.)
//!
//! Layer: tests; private. Its tests are run by `rt test`.
use report_text::{Fault, fault_text};
use std::alloc::{AllocError, Global};
use std::test::Fail;

// Whether a fault has this line.
fn tells(alloc: Global, fault: &Fault, line: &str) -> Result<bool, AllocError> {
    Ok(fault_text(alloc, fault)?.as_str() == line)
}

#[test]
fn faults_of_the_program(rt: HostRuntime) -> Result<(), Fail> {
    assert!(rt; tells(rt.alloc(), &Fault::Read, "nkctl: read fault\n")?);
    assert!(rt; tells(rt.alloc(), &Fault::Net, "nkctl: net fault\n")?);
    assert!(rt; tells(rt.alloc(), &Fault::NoThread, "nkctl: no thread\n")?);
    Ok(())
}
