//! A message that waits until its process isn't clogged any more.
use fy_locality::ProcId;
use fy_net::{Body, Net, NetFault};
use std::test::Fail;

#[test]
fn a_clog_holds_a_message_up(rt: HostRuntime) -> Result<(), Fail> {
    let mut net = Net::make(rt.alloc(), 2)?;
    let to = ProcId(1);
    let body = Body::Store { rec: 0, to };
    net.reserve(1)?;
    assert_eq!(rt; net.send(body), 0);
    net.clog(to, 5);
    assert_eq!(rt; net.take(0), Err(NetFault::Clogged));
    assert_eq!(rt; net.asked_clog_end(to), 5);
    net.unclog(to);
    assert_eq!(rt; (net.clogged(to), net.take(0)), (false, Ok(body)));
    Ok(())
}
