//! The machine of claims event by event, and boards that two passes draw from.
use super::*;
use std::test::Fail;

#[test]
fn steps_the_machine(rt: HostRuntime) -> Result<(), Fail> {
    let mut core = core_new(rt.alloc(), 2, 3)?;
    let events = [
        (Event::Done(0, 0), Err(NotNow)),
        (Event::Draw(2), Err(NotNow)),
        (Event::Draw(0), Ok(())),
        (Event::Draw(1), Ok(())),
        (Event::Draw(0), Ok(())),
        (Event::Draw(0), Err(NotNow)),
        (Event::Done(0, 0), Ok(())),
        (Event::Done(0, 0), Err(NotNow)),
        (Event::Skip(0, 2, 1), Err(NotNow)),
        (Event::Fault(0, 1), Err(NotNow)),
        (Event::Fault(1, 1), Ok(())),
        (Event::Skip(0, 2, 1), Ok(())),
    ];
    for (event, answer) in events {
        assert!(rt; core_step(&mut core, event) == answer, "{event:?}");
    }
    claims_end_well();
    steps_are_events();
    Ok(())
}

#[test]
fn draws_by_turns(rt: HostRuntime) -> Result<(), Fail> {
    let (board, mut one) = Board::new(rt.alloc(), 2)?;
    let mut two = board.split(&mut one)?;
    assert!(rt; one.room() == WHOLE_SHARE - 1 && two.share() == 1);
    let first = board.draw(&mut one);
    let second = board.draw(&mut two);
    assert!(rt; first == Some(0) && second == Some(1));
    board.done(&mut two, 1);
    assert!(rt; board.draw(&mut one).is_none() && board.draw(&mut two).is_none());
    board.join(&mut one, two);
    assert!(rt; one.room() == WHOLE_SHARE - 2 && one.share() == WHOLE_SHARE);
    let end = board.close(one)?;
    assert_eq!(rt; end, BoardEnd { drawn: 2, least: 2 });
    Ok(())
}

#[test]
fn settles_each_ticket(rt: HostRuntime) -> Result<(), Fail> {
    let (board, mut pass) = Board::new(rt.alloc(), 4)?;
    let Some(first) = board.draw(&mut pass) else {
        panic!(rt; "a ticket is left");
    };
    board.report(&mut pass, first);
    let Some(second) = board.draw(&mut pass) else {
        panic!(rt; "a ticket is left");
    };
    let least = board.least(&mut pass);
    assert!(rt; least == 0 && least < second);
    board.skip(&mut pass, second);
    let end = board.close(pass)?;
    assert_eq!(rt; end, BoardEnd { drawn: 2, least: 0 });
    Ok(())
}
