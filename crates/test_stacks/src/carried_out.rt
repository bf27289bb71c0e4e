//! Lists of commands, and where the blocks are afterwards.
use crate::blocks::{dropped, no_drops, pair, pops};
use crate::compared::{at_most, made};
use freelist::Stack;
use freelist::laws::{Command, Turn, run_both};

/// A get that fetches what was put back.
const FETCHES: &[Turn] = &[
    Turn::First(Command::Split(0)),
    Turn::First(Command::Open),
    Turn::First(Command::PutRemote),
    Turn::First(Command::Put),
    Turn::First(Command::Get),
    Turn::First(Command::Get),
    Turn::First(Command::Get),
];

/// A user with no block idles.
const NO_BLOCK: &[Turn] = &[
    Turn::First(Command::Split(0)),
    Turn::First(Command::Open),
    Turn::First(Command::Get),
    Turn::First(Command::Put),
    Turn::First(Command::PutRemote),
    Turn::First(Command::Get),
    Turn::First(Command::PutRemote),
    Turn::First(Command::Get),
    Turn::First(Command::Put),
    Turn::First(Command::Put),
    Turn::First(Command::PutRemote),
];

/// A user without parts or rooms idles.
const NO_PARTS: &[Turn] = &[
    Turn::First(Command::Get),
    Turn::First(Command::Put),
    Turn::First(Command::Finish),
    Turn::First(Command::Absorb),
    Turn::First(Command::Open),
    Turn::First(Command::Split(4)),
    Turn::First(Command::PutRemote),
    Turn::First(Command::Split(2)),
    Turn::First(Command::PutRemote),
    Turn::First(Command::Split(0)),
    Turn::First(Command::Open),
    Turn::First(Command::Open),
    Turn::First(Command::Get),
    Turn::First(Command::Finish),
    Turn::First(Command::Finish),
    Turn::First(Command::Absorb),
    Turn::First(Command::PutRemote),
];

/// A user gets what another put back.
const BETWEEN_USERS: &[Turn] = &[
    Turn::Second(Command::Split(0)),
    Turn::First(Command::PutRemote),
    Turn::Second(Command::Open),
    Turn::First(Command::PutRemote),
    Turn::Second(Command::Get),
    Turn::First(Command::PutRemote),
    Turn::Second(Command::PutRemote),
];

/// A user gets what another put back before, and not what it puts back after.
const AT_ITS_TURN: &[Turn] = &[
    Turn::Second(Command::Split(0)),
    Turn::Second(Command::Open),
    Turn::First(Command::PutRemote),
    Turn::Second(Command::Get),
    Turn::First(Command::PutRemote),
];

/// How many rooms each user has, what the users do, and what the first and the second then have, and what is shared.
type Case = (usize, &'static [Turn], [&'static [u64]; 3]);

/// At first the first user has the blocks 2 and, on top of that, 1.
const CASES: [Case; 5] = [
    (5, FETCHES, [&[1, 2], &[], &[]]),
    (9, NO_BLOCK, [&[2, 1], &[], &[]]),
    (3, NO_PARTS, [&[2], &[], &[1]]),
    (2, BETWEEN_USERS, [&[], &[1], &[2]]),
    (2, AT_ITS_TURN, [&[], &[1], &[2]]),
];

#[test]
fn blocks_are_where_commands_put_them(rt: HostRuntime) {
    for (rooms, turns, [first, second, shared]) in CASES {
        at_most(&rt, rooms, 9);
        let drops = no_drops(&rt, rt.alloc());
        let (one, two) = pair(&rt, rt.alloc(), 1, &drops);
        let mut hand = Stack::new();
        hand.push(two);
        hand.push(one);
        let hands = (hand, Stack::new());
        let given = made(&rt, run_both(rt.alloc(), rooms, hands, turns));
        dropped(&rt, &drops, 0);
        let (with_first, with_second, left) = given;
        pops(&rt, with_first, first);
        pops(&rt, with_second, second);
        pops(&rt, left, shared);
        dropped(&rt, &drops, 2);
    }
}
