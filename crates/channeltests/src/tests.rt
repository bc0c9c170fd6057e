use crate::mute::Mute;
use acts::{Act, Letter};
use book::book::Book;
use channel::bag::Bag;
use channel::channel::Channel;
use channel::line::Line;
use chart::chart::Chart;
use conversation::order::Order;
use conversation::run::run;
use std::process::Abort;
use std::test::Fail;

// 0 sends 1, then 2; 1 receives 2, then 1.
const CROSSING: [u8; 19] = [
    0x43, 2, 0x4c, 0, 0x53, 1, 1, 0x53, 1, 2, 0x4c, 1, 0x52, 0, 2, 0x52, 0, 1, 0x5a,
];

fn send(name: u8) -> Act {
    Act {
        party: 0,
        letter: Letter::Send,
        peer: 1,
        name,
    }
}

fn receive(name: u8) -> Act {
    Act {
        party: 1,
        letter: Letter::Receive,
        peer: 0,
        name,
    }
}

#[test]
fn crossing_messages(rt: HostRuntime) -> Result<(), Fail> {
    let heap = rt.alloc();
    let mut chart = Chart::new(heap)?;
    assert!(rt; chart.read(&CROSSING).is_ok());
    let mut order = Order::new(heap)?;
    let mut line = Line::new(heap)?;
    assert_eq!(rt; run(&mut line, &chart, &mut order), 2);
    assert!(rt; line.idle());
    let mut bag = Bag::new();
    assert_eq!(rt; run(&mut bag, &chart, &mut order), 4);
    assert!(rt; bag.idle());
    let mut mute = Mute;
    assert_eq!(rt; run(&mut mute, &chart, &mut order), 0);
    Ok(())
}

// 32 messages wait and no more; one received makes room for one.
fn full_pair<C: Channel>(rt: &impl Abort, channel: &mut C) {
    channel.clear();
    for name in 0..32u8 {
        assert!(rt; channel.carry(send(name)).is_ok());
    }
    assert!(rt; !channel.may(send(0)));
    assert!(rt; channel.carry(send(0)).is_err());
    assert!(rt; channel.carry(receive(0)).is_ok());
    assert!(rt; channel.may(send(0)));
    assert!(rt; channel.carry(send(0)).is_ok());
    assert!(rt; !channel.idle());
    channel.clear();
    assert!(rt; channel.idle());
}

#[test]
fn pairs_fill_up(rt: HostRuntime) -> Result<(), Fail> {
    full_pair(&rt, &mut Line::new(rt.alloc())?);
    full_pair(&rt, &mut Bag::new());
    Ok(())
}

// An act out of range is denied, and nothing changes.
fn out_of_range<C: Channel>(rt: &impl Abort, channel: &mut C) {
    channel.clear();
    assert!(rt;
        channel
            .carry(Act {
                party: 6,
                ..send(1)
            })
            .is_err()
    );
    assert!(rt; channel.carry(Act { peer: 6, ..send(1) }).is_err());
    assert!(rt; channel.carry(Act { peer: 0, ..send(1) }).is_err());
    assert!(rt; channel.carry(send(32)).is_err());
    assert!(rt; channel.carry(receive(1)).is_err());
    assert!(rt; channel.idle());
}

#[test]
fn out_of_range_is_denied(rt: HostRuntime) -> Result<(), Fail> {
    out_of_range(&rt, &mut Line::new(rt.alloc())?);
    out_of_range(&rt, &mut Bag::new());
    out_of_range(&rt, &mut Mute);
    Ok(())
}

// A book over a channel that denies every act takes charts without acts only.
#[test]
fn mute_book(rt: HostRuntime) -> Result<(), Fail> {
    let heap = rt.alloc();
    let mut book = Book::new(heap, Mute)?;
    let mut chart = Chart::new(heap)?;
    assert!(rt; chart.read(&CROSSING).is_ok());
    match book.add(0, chart) {
        Ok(_) => Err(Fail::new("a chart with acts was taken")),
        Err(fault) => {
            assert!(rt; fault.number() == 13);
            assert!(rt; fault.place == 0);
            Ok(())
        }
    }?;
    assert!(rt; book.add(0, Chart::new(heap)?).is_ok());
    assert!(rt; book.withdraw(0).is_ok());
    assert!(rt; book.withdraw(0).is_err());
    Ok(())
}

#[test]
fn order_kept_or_not(rt: HostRuntime) -> Result<(), Fail> {
    let mut line = Line::new(rt.alloc())?;
    assert!(rt; line.carry(send(1)).is_ok() && line.carry(send(2)).is_ok());
    assert!(rt; !line.may(receive(2)) && line.may(receive(1)));
    let mut bag = Bag::new();
    assert!(rt; bag.carry(send(1)).is_ok() && bag.carry(send(2)).is_ok());
    assert!(rt; bag.may(receive(2)) && bag.may(receive(1)) && !bag.may(receive(3)));
    assert_eq!(rt; line.kind(), 1);
    assert_eq!(rt; bag.kind(), 2);
    Ok(())
}
