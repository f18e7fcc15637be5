//! The results of a small star, by hand.
//!
//! Layer: tests; private. Its tests are run by `rt test`.
use history_meaning::some_results;
use nk_syntax::{Pol, Pols, Pred};
use nk_values::{Field, Header, History, Lit, Packet};
use std::alloc::{AllocError, Global};
use std::test::Fail;

// A packet at port 1 of switch 1 for this destination.
fn packet(eth_dst: u64) -> Packet {
    let header = Header {
        eth_typ: 2048,
        ip_proto: 0,
        eth_src: 0,
        eth_dst,
        ip4_src: 0,
        ip4_dst: 0,
        tcp_src_port: 0,
        tcp_dst_port: 0,
    };
    Packet {
        sw: 1,
        pt: 1,
        header,
    }
}

// `ethDst=from; ethDst:=to`
fn step(alloc: Global, from: Lit, to: Lit) -> Result<Pol, AllocError> {
    let items = vec![in alloc; Pol::Filter(Pred::Test(from)), Pol::Assign(to)]?;
    Ok(Pol::Seq(Pols { items }))
}

// `(ethDst=1; ethDst:=2 + ethDst=2; ethDst:=3)*; pt:=2`
fn two_steps(alloc: Global, dst: [Lit; 3], port: Lit) -> Result<Pol, AllocError> {
    let [one, two, three] = dst;
    let items = vec![in alloc; step(alloc, one, two)?, step(alloc, two, three)?]?;
    let sum = Pol::Sum(Pols { items });
    let star = Pol::Star(Box::new(alloc, sum)?);
    let items = vec![in alloc; star, Pol::Assign(port)]?;
    Ok(Pol::Seq(Pols { items }))
}

// The port and the destination of each newest packet, two digits a history; 0 for out of memory.
fn digits(results: Result<Vec<History>, AllocError>) -> u64 {
    let Ok(histories) = results else {
        return 0;
    };
    let mut digits = 0u64;
    for history in &histories {
        let packet = history.newest();
        digits = digits.wrapping_mul(10).wrapping_add(packet.pt);
        digits = digits.wrapping_mul(10).wrapping_add(packet.header.eth_dst);
    }
    digits
}

#[test]
fn takes_its_turns(rt: HostRuntime) -> Result<(), Fail> {
    let alloc = rt.alloc();
    let one = Lit::new(Field::EthDst, 1).ok_or("no literal")?;
    let two = Lit::new(Field::EthDst, 2).ok_or("no literal")?;
    let three = Lit::new(Field::EthDst, 3).ok_or("no literal")?;
    let port = Lit::new(Field::Pt, 2).ok_or("no literal")?;
    let pol = two_steps(alloc, [one, two, three], port)?;
    let history = History::new(packet(1));
    assert!(rt; digits(some_results(alloc, &pol, &history, 2)) == 21_22_23);
    assert!(rt; digits(some_results(alloc, &pol, &history, 1)) == 21_22);
    Ok(())
}
