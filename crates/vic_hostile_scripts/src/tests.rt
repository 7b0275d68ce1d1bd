//! Scripts with what they print. What each prints was worked out by hand from the rules, and the hashes of contents by another program.

use std::alloc::Global;
use std::test::Fail;
use vic_dict::{Bytes, NoMemory};
use vic_group::play::{End, play};

/// A script and what it prints, each with ` / ` between its lines, and how it ends.
type Row = (&'static str, &'static str, End);

/// The same course for each kind, with 0, 1 and 5 requests.
const KINDS: [Row; 21] = [
    // Client 1 puts, with the requests 1 to 3, and client 2 gets, with the requests 4 to 6. All is as with an honest server.
    (
        "clients 2 / hostile rollback 0 / call 1 put a x / run 1 / call 2 get a / run 2",
        "1 done stored / 1 took / 1 took / 2 done value x / 2 took / 2 took / view 1 / 1.1 put a x = done stored / view 2 / 1.1 put a x = done stored / 2.1 get a = done value x / agree 1 2 1 / tags made",
        End::Whole,
    ),
    // The Seal goes to the state in which the call is open, and the get is aborted there.
    (
        "clients 2 / hostile rollback 1 / call 1 put a x / run 1 / call 2 get a / run 2",
        "1 done stored / 1 took / 1 halted 1 / 2 aborted 1 / 2 took / view 1 / 1.1 put a x = done stored / view 2 / 1.1 put a x = done stored / 2.1 get a = aborted 1 / agree 1 2 1 / tags made",
        End::Whole,
    ),
    // There is no eleventh request.
    (
        "clients 2 / hostile rollback 5 / call 1 put a x / run 1 / call 2 get a / run 2",
        "1 done stored / 1 took / 1 took / 2 done value x / 2 took / 2 took / view 1 / 1.1 put a x = done stored / view 2 / 1.1 put a x = done stored / 2.1 get a = done value x / agree 1 2 1 / tags made",
        End::Whole,
    ),
    // Client 2 has a server of its own.
    (
        "clients 2 / hostile fork 0 / call 1 put a x / run 1 / call 2 get a / run 2",
        "1 done stored / 1 took / 1 took / 2 done none / 2 took / 2 took / view 1 / 1.1 put a x = done stored / view 2 / 2.1 get a = done none / agree 1 2 0 / tags made",
        End::Whole,
    ),
    // On it the put is ordered, and never committed.
    (
        "clients 2 / hostile fork 1 / call 1 put a x / run 1 / call 2 get a / run 2",
        "1 done stored / 1 took / 1 took / 2 aborted 1 / 2 took / view 1 / 1.1 put a x = done stored / view 2 / 1.1 put a x = done stored / 2.1 get a = aborted 1 / agree 1 2 1 / tags made",
        End::Whole,
    ),
    // On it there is all but the last seal.
    (
        "clients 2 / hostile fork 5 / call 1 put a x / run 1 / call 2 get a / run 2",
        "1 done stored / 1 took / 1 took / 2 done value x / 2 took / 2 took / view 1 / 1.1 put a x = done stored / view 2 / 1.1 put a x = done stored / 2.1 get a = done value x / agree 1 2 1 / tags made",
        End::Whole,
    ),
    // Nobody was told anything.
    (
        "clients 2 / hostile replay 0 / call 1 put a x / run 1 / call 2 get a / run 2",
        "1 done stored / 1 took / 1 took / 2 done value x / 2 took / 2 took / view 1 / 1.1 put a x = done stored / view 2 / 1.1 put a x = done stored / 2.1 get a = done value x / agree 1 2 1 / tags made",
        End::Whole,
    ),
    // The Commit is answered by the Reply. Client 2 was told nothing, and is served.
    (
        "clients 2 / hostile replay 1 / call 1 put a x / run 1 / call 2 get a / run 2",
        "1 done stored / 1 halted 1 / 2 aborted 1 / 2 took / view 1 / 1.1 put a x = done stored / view 2 / 1.1 put a x = done stored / 2.1 get a = aborted 1 / agree 1 2 1 / tags made",
        End::Whole,
    ),
    // The Seal of client 2 is answered by the Update before it.
    (
        "clients 2 / hostile replay 5 / call 1 put a x / run 1 / call 2 get a / run 2",
        "1 done stored / 1 took / 1 took / 2 done value x / 2 took / 2 halted 4 / view 1 / 1.1 put a x = done stored / view 2 / 1.1 put a x = done stored / 2.1 get a = done value x / agree 1 2 1 / tags made",
        End::Whole,
    ),
    // Of two entries all but the last are one.
    (
        "clients 2 / hostile swap 0 / call 1 put a x / run 1 / call 2 get a / run 2",
        "1 done stored / 1 took / 1 took / 2 done value x / 2 took / 2 took / view 1 / 1.1 put a x = done stored / view 2 / 1.1 put a x = done stored / 2.1 get a = done value x / agree 1 2 1 / tags made",
        End::Whole,
    ),
    (
        "clients 2 / hostile swap 1 / call 1 put a x / run 1 / call 2 get a / run 2",
        "1 done stored / 1 took / 1 took / 2 done value x / 2 took / 2 took / view 1 / 1.1 put a x = done stored / view 2 / 1.1 put a x = done stored / 2.1 get a = done value x / agree 1 2 1 / tags made",
        End::Whole,
    ),
    (
        "clients 2 / hostile swap 5 / call 1 put a x / run 1 / call 2 get a / run 2",
        "1 done stored / 1 took / 1 took / 2 done value x / 2 took / 2 took / view 1 / 1.1 put a x = done stored / view 2 / 1.1 put a x = done stored / 2.1 get a = done value x / agree 1 2 1 / tags made",
        End::Whole,
    ),
    // Up to the first seal the part of the empty dictionary is the right one.
    (
        "clients 2 / hostile badproof 0 / call 1 put a x / run 1 / call 2 get a / run 2",
        "1 done stored / 1 took / 1 took / 2 halted 7 / view 1 / 1.1 put a x = done stored / view 2 / agree 1 2 0 / tags made",
        End::Whole,
    ),
    (
        "clients 2 / hostile badproof 1 / call 1 put a x / run 1 / call 2 get a / run 2",
        "1 done stored / 1 took / 1 took / 2 halted 7 / view 1 / 1.1 put a x = done stored / view 2 / agree 1 2 0 / tags made",
        End::Whole,
    ),
    // The last answer is a Wait, which has no part.
    (
        "clients 2 / hostile badproof 5 / call 1 put a x / run 1 / call 2 get a / run 2",
        "1 done stored / 1 took / 1 took / 2 done value x / 2 took / 2 took / view 1 / 1.1 put a x = done stored / view 2 / 1.1 put a x = done stored / 2.1 get a = done value x / agree 1 2 1 / tags made",
        End::Whole,
    ),
    // The past dictionary is the empty one.
    (
        "clients 2 / hostile stale 0 / call 1 put a x / run 1 / call 2 get a / run 2",
        "1 done stored / 1 took / 1 took / 2 halted 7 / view 1 / 1.1 put a x = done stored / view 2 / agree 1 2 0 / tags made",
        End::Whole,
    ),
    (
        "clients 2 / hostile stale 1 / call 1 put a x / run 1 / call 2 get a / run 2",
        "1 done stored / 1 took / 1 took / 2 halted 7 / view 1 / 1.1 put a x = done stored / view 2 / agree 1 2 0 / tags made",
        End::Whole,
    ),
    (
        "clients 2 / hostile stale 5 / call 1 put a x / run 1 / call 2 get a / run 2",
        "1 done stored / 1 took / 1 took / 2 done value x / 2 took / 2 took / view 1 / 1.1 put a x = done stored / view 2 / 1.1 put a x = done stored / 2.1 get a = done value x / agree 1 2 1 / tags made",
        End::Whole,
    ),
    // A Reply, an Update and a Wait without the last byte.
    (
        "clients 2 / hostile truncate 0 / call 1 put a x / run 1 / call 2 get a / run 2",
        "1 halted 1 / 2 halted 1 / view 1 / view 2 / agree 1 2 0 / tags made",
        End::Whole,
    ),
    (
        "clients 2 / hostile truncate 1 / call 1 put a x / run 1 / call 2 get a / run 2",
        "1 done stored / 1 halted 1 / 2 halted 1 / view 1 / 1.1 put a x = done stored / view 2 / agree 1 2 0 / tags made",
        End::Whole,
    ),
    (
        "clients 2 / hostile truncate 5 / call 1 put a x / run 1 / call 2 get a / run 2",
        "1 done stored / 1 took / 1 took / 2 done value x / 2 took / 2 halted 1 / view 1 / 1.1 put a x = done stored / view 2 / 1.1 put a x = done stored / 2.1 get a = done value x / agree 1 2 1 / tags made",
        End::Whole,
    ),
];

/// Other courses of a dictionary, and copies of servers.
const COURSES: [Row; 26] = [
    // The seventh request goes to the state behind the third, which has one entry.
    (
        "clients 1 / hostile rollback 3 / call 1 put a x / run 1 / call 1 put a y / run 1 / call 1 get a / run 1",
        "1 done stored / 1 took / 1 took / 1 done stored / 1 took / 1 took / 1 refused 5 / view 1 / 1.1 put a x = done stored / 1.2 put a y = done stored / tags made",
        End::Whole,
    ),
    // The fifth request goes to the state behind the second, in which nothing is sealed.
    (
        "clients 1 / hostile rollback 2 / call 1 put a x / run 1 / poll 1 / run 1 / call 1 get a / run 1",
        "1 done stored / 1 took / 1 took / 1 took / 1 halted 4 / view 1 / 1.1 put a x = done stored / tags made",
        End::Whole,
    ),
    (
        "clients 1 / hostile replay 1 / call 1 put a x / run 1",
        "1 done stored / 1 halted 1 / view 1 / 1.1 put a x = done stored / tags made",
        End::Whole,
    ),
    (
        "clients 1 / hostile badproof 3 / call 1 put a x / run 1 / call 1 get a / run 1",
        "1 done stored / 1 took / 1 took / 1 halted 7 / view 1 / 1.1 put a x = done stored / tags made",
        End::Whole,
    ),
    (
        "clients 1 / hostile stale 0 / call 1 put a x / run 1 / call 1 get a / run 1",
        "1 done stored / 1 took / 1 took / 1 halted 7 / view 1 / 1.1 put a x = done stored / tags made",
        End::Whole,
    ),
    (
        "clients 1 / hostile truncate 0 / call 1 put a x / run 1",
        "1 halted 1 / view 1 / tags made",
        End::Whole,
    ),
    // The Reply to client 3 has three entries, of which the first two are told the other way round.
    (
        "clients 3 / hostile swap 0 / call 1 put a x / call 2 put b y / call 3 put c z / serve 1 / serve 2 / serve 3 / take 1 / take 2 / take 3 / run 1 / run 2 / run 3",
        "1 done stored / 2 done stored / 3 done stored / 1 took / 1 took / 2 took / 2 took / 3 halted 5 / view 1 / 1.1 put a x = done stored / view 2 / 1.1 put a x = done stored / 2.1 put b y = done stored / view 3 / 3.1 put c z = done stored / agree 1 2 1 / agree 1 3 0 / agree 2 3 0 / tags made",
        End::Whole,
    ),
    // The same where they are sealed.
    (
        "clients 3 / hostile swap 0 / call 1 put a x / run 1 / call 2 put b y / run 2 / call 3 get a / run 3",
        "1 done stored / 1 took / 1 took / 2 done stored / 2 took / 2 took / 3 halted 5 / view 1 / 1.1 put a x = done stored / view 2 / 1.1 put a x = done stored / 2.1 put b y = done stored / view 3 / agree 1 2 1 / agree 1 3 0 / agree 2 3 0 / tags made",
        End::Whole,
    ),
    // What a Sync is told isn't swapped.
    (
        "clients 3 / hostile swap 0 / call 1 put a x / run 1 / call 2 put b y / run 2 / sync 3 / run 3 / call 3 get b / run 3",
        "1 done stored / 1 took / 1 took / 2 done stored / 2 took / 2 took / 3 took / 3 done value y / 3 took / 3 took / view 1 / 1.1 put a x = done stored / view 2 / 1.1 put a x = done stored / 2.1 put b y = done stored / view 3 / 1.1 put a x = done stored / 2.1 put b y = done stored / 3.1 get b = done value y / agree 1 2 1 / agree 1 3 1 / agree 2 3 2 / tags made",
        End::Whole,
    ),
    // The sixth request, a Poll, is answered by an Update, when one pair is sealed.
    (
        "clients 2 / hostile badproof 5 / call 2 put b y / serve 2 / take 2 / call 1 put a x / run 1 / run 2 / poll 1 / run 1",
        "2 done stored / 1 done stored / 1 took / 2 took / 2 took / 1 halted 7 / view 1 / 2.1 put b y = done stored / 1.1 put a x = done stored / view 2 / 2.1 put b y = done stored / agree 1 2 1 / tags made",
        End::Whole,
    ),
    (
        "clients 2 / hostile stale 4 / call 2 put b y / serve 2 / take 2 / call 1 put a x / run 1 / run 2 / poll 1 / run 1",
        "2 done stored / 1 done stored / 1 took / 2 took / 2 took / 1 halted 7 / view 1 / 2.1 put b y = done stored / 1.1 put a x = done stored / view 2 / 2.1 put b y = done stored / agree 1 2 1 / tags made",
        End::Whole,
    ),
    // That pair was sealed by the fifth.
    (
        "clients 2 / hostile stale 5 / call 2 put b y / serve 2 / take 2 / call 1 put a x / run 1 / run 2 / poll 1 / run 1",
        "2 done stored / 1 done stored / 1 took / 2 took / 2 took / 1 took / 1 took / view 1 / 2.1 put b y = done stored / 1.1 put a x = done stored / view 2 / 2.1 put b y = done stored / agree 1 2 1 / tags made",
        End::Whole,
    ),
    // A request that is refused counts, and so does one that was sent again: the put is the third request.
    (
        "clients 2 / hostile truncate 2 / call 2 get b / resend 2 / serve 2 / serve 2 / call 1 put a x / run 1",
        "1 halted 1 / view 1 / view 2 / agree 1 2 0 / tags made",
        End::Whole,
    ),
    // The largest number.
    (
        "clients 2 / hostile truncate 1000000 / call 1 put a x / run 1 / call 2 get a / run 2",
        "1 done stored / 1 took / 1 took / 2 done value x / 2 took / 2 took / view 1 / 1.1 put a x = done stored / view 2 / 1.1 put a x = done stored / 2.1 get a = done value x / agree 1 2 1 / tags made",
        End::Whole,
    ),
    // A copy has the count and the state that is kept: the get is the seventh request.
    (
        "clients 1 / hostile rollback 3 / call 1 put a x / run 1 / call 1 put a y / serve 1 / take 1 / copy 1 2 / move 1 2 / run 1 / call 1 get a / run 1",
        "1 done stored / 1 took / 1 took / 1 done stored / 1 took / 1 took / 1 refused 5 / view 1 / 1.1 put a x = done stored / 1.2 put a y = done stored / tags made",
        End::Whole,
    ),
    // A copy of a fork has both sides.
    (
        "clients 2 / hostile fork 1 / call 1 put a x / run 1 / copy 1 2 / move 2 2 / call 2 get a / run 2",
        "1 done stored / 1 took / 1 took / 2 aborted 1 / 2 took / view 1 / 1.1 put a x = done stored / view 2 / 1.1 put a x = done stored / 2.1 get a = aborted 1 / agree 1 2 1 / tags made",
        End::Whole,
    ),
    // A copy has what clients were told.
    (
        "clients 1 / hostile replay 1 / call 1 put a x / serve 1 / take 1 / copy 1 2 / move 1 2 / run 1",
        "1 done stored / 1 halted 1 / view 1 / 1.1 put a x = done stored / tags made",
        End::Whole,
    ),
    // A copy has the past dictionary.
    (
        "clients 1 / hostile stale 3 / call 1 put a x / run 1 / call 1 put a y / run 1 / copy 1 2 / move 1 2 / call 1 get a / run 1",
        "1 done stored / 1 took / 1 took / 1 done stored / 1 took / 1 took / 1 halted 7 / view 1 / 1.1 put a x = done stored / 1.2 put a y = done stored / tags made",
        End::Whole,
    ),
    // Each copy goes on counting by itself: of each server the fifth request is the first that it cuts.
    (
        "clients 2 / hostile truncate 4 / call 1 put a x / run 1 / copy 1 2 / move 2 2 / sync 1 / run 1 / sync 2 / run 2 / poll 1 / run 1 / poll 2 / run 2",
        "1 done stored / 1 took / 1 took / 1 took / 2 took / 1 halted 1 / 2 halted 1 / view 1 / 1.1 put a x = done stored / view 2 / agree 1 2 0 / tags made",
        End::Whole,
    ),
    // A copy of a server to its own place is the same server.
    (
        "clients 1 / hostile truncate 3 / call 1 put a x / run 1 / copy 1 1 / poll 1 / run 1",
        "1 done stored / 1 took / 1 took / 1 halted 1 / view 1 / 1.1 put a x = done stored / tags made",
        End::Whole,
    ),
    // What a Sync is told isn't swapped: three entries, in their order.
    (
        "clients 2 / hostile swap 0 / call 1 put a x / run 1 / call 1 put b y / run 1 / call 1 put c z / run 1 / sync 2 / run 2",
        "1 done stored / 1 took / 1 took / 1 done stored / 1 took / 1 took / 1 done stored / 1 took / 1 took / 2 took / view 1 / 1.1 put a x = done stored / 1.2 put b y = done stored / 1.3 put c z = done stored / view 2 / agree 1 2 0 / tags made",
        End::Whole,
    ),
    // The other entries of a Reply are told from the last to the first: what was third is first, and what was first is third.
    (
        "clients 4 / hostile swap 0 / call 1 put a x / call 2 put b y / call 3 put c z / call 4 get c / serve 1 / serve 2 / serve 3 / serve 4 / take 4",
        "4 aborted 1 / view 1 / view 2 / view 3 / view 4 / 4.1 get c = aborted 1 / agree 1 2 0 / agree 1 3 0 / agree 1 4 0 / agree 2 3 0 / agree 2 4 0 / agree 3 4 0 / tags made",
        End::Whole,
    ),
    (
        "clients 4 / hostile swap 0 / call 1 put a x / call 2 put b y / call 3 put c z / call 4 get a / serve 1 / serve 2 / serve 3 / serve 4 / take 4",
        "4 aborted 3 / view 1 / view 2 / view 3 / view 4 / 4.1 get a = aborted 3 / agree 1 2 0 / agree 1 3 0 / agree 1 4 0 / agree 2 3 0 / agree 2 4 0 / agree 3 4 0 / tags made",
        End::Whole,
    ),
    // Clients with odd numbers share a side of a fork.
    (
        "clients 3 / hostile fork 0 / call 1 put a x / run 1 / call 3 get a / run 3",
        "1 done stored / 1 took / 1 took / 3 done value x / 3 took / 3 took / view 1 / 1.1 put a x = done stored / view 2 / view 3 / 1.1 put a x = done stored / 3.1 get a = done value x / agree 1 2 0 / agree 1 3 1 / agree 2 3 0 / tags made",
        End::Whole,
    ),
    // An answer that is given again serves nothing: the second put isn't ordered.
    (
        "clients 2 / hostile replay 3 / call 1 put a x / run 1 / call 1 put a y / run 1 / call 2 get a / run 2",
        "1 done stored / 1 took / 1 took / 1 halted 1 / 2 done value x / 2 took / 2 took / view 1 / 1.1 put a x = done stored / view 2 / 1.1 put a x = done stored / 2.1 get a = done value x / agree 1 2 1 / tags made",
        End::Whole,
    ),
    // An Update whose next call changes nothing has the bare part of the past dictionary.
    (
        "clients 2 / hostile stale 0 / call 1 put a x / call 2 get b / serve 1 / serve 2 / take 1 / take 2 / run 1 / run 2",
        "1 done stored / 2 done none / 1 took / 1 took / 2 halted 7 / view 1 / 1.1 put a x = done stored / view 2 / 1.1 put a x = done stored / 2.1 get b = done none / agree 1 2 1 / tags made",
        End::Whole,
    ),
];

/// Groups with objects.
const OBJECTS: [Row; 8] = [
    // Groups with objects. A store is a Keep and three requests more, and a load three and a Fetch.
    (
        "objects 1 / hostile truncate 0 / call 1 store f abc / run 1",
        "1 halted 1 / view 1 / tags made",
        End::Whole,
    ),
    // The content comes without its last byte.
    (
        "objects 1 / hostile truncate 7 / call 1 store f abc / run 1 / call 1 load f / run 1",
        "1 took / 1 done stored / 1 object stored / 1 took / 1 took / 1 done value %df85cc6b91940ee75600a9622c9e77c6fe347af5ec29780ad5a66253a16c4eac00000003 / 1 took / 1 took / 1 halted 9 / view 1 / 1.1 put f %df85cc6b91940ee75600a9622c9e77c6fe347af5ec29780ad5a66253a16c4eac00000003 = done stored / 1.2 get f = done value %df85cc6b91940ee75600a9622c9e77c6fe347af5ec29780ad5a66253a16c4eac00000003 / tags made",
        End::Whole,
    ),
    // The Fetch goes to the state in which nothing was kept.
    (
        "objects 1 / hostile rollback 7 / poll 1 / run 1 / poll 1 / run 1 / poll 1 / run 1 / poll 1 / run 1 / poll 1 / run 1 / poll 1 / run 1 / poll 1 / run 1 / call 1 store f abc / run 1 / call 1 load f / run 1",
        "1 took / 1 took / 1 took / 1 took / 1 took / 1 took / 1 took / 1 took / 1 done stored / 1 object stored / 1 took / 1 took / 1 done value %df85cc6b91940ee75600a9622c9e77c6fe347af5ec29780ad5a66253a16c4eac00000003 / 1 took / 1 took / 1 halted 9 / view 1 / 1.1 put f %df85cc6b91940ee75600a9622c9e77c6fe347af5ec29780ad5a66253a16c4eac00000003 = done stored / 1.2 get f = done value %df85cc6b91940ee75600a9622c9e77c6fe347af5ec29780ad5a66253a16c4eac00000003 / tags made",
        End::Whole,
    ),
    // The load goes to a state that knows nothing of the second store.
    (
        "objects 1 / hostile rollback 4 / call 1 store f abc / run 1 / call 1 store g abd / run 1 / call 1 load f / run 1",
        "1 took / 1 done stored / 1 object stored / 1 took / 1 took / 1 took / 1 done stored / 1 object stored / 1 took / 1 took / 1 refused 5 / 1 object refused 5 / view 1 / 1.1 put f %df85cc6b91940ee75600a9622c9e77c6fe347af5ec29780ad5a66253a16c4eac00000003 = done stored / 1.2 put g %883f609e9e44f439001de35a4c18a039bbf7e4cf7f0316735b5257e56147a6a400000003 = done stored / tags made",
        End::Whole,
    ),
    (
        "objects 2 / hostile fork 0 / call 1 store f abc / run 1 / call 2 load f / run 2",
        "1 took / 1 done stored / 1 object stored / 1 took / 1 took / 2 done none / 2 object missing / 2 took / 2 took / view 1 / 1.1 put f %df85cc6b91940ee75600a9622c9e77c6fe347af5ec29780ad5a66253a16c4eac00000003 = done stored / view 2 / 2.1 get f = done none / agree 1 2 0 / tags made",
        End::Whole,
    ),
    // The Invoke is answered by the Kept before it.
    (
        "objects 1 / hostile replay 1 / call 1 store f abc / run 1",
        "1 took / 1 halted 1 / view 1 / tags made",
        End::Whole,
    ),
    (
        "objects 1 / hostile badproof 0 / call 1 store f abc / run 1 / call 1 load f / run 1",
        "1 took / 1 done stored / 1 object stored / 1 took / 1 took / 1 halted 7 / view 1 / 1.1 put f %df85cc6b91940ee75600a9622c9e77c6fe347af5ec29780ad5a66253a16c4eac00000003 = done stored / tags made",
        End::Whole,
    ),
    // By the old part the name would have its first content.
    (
        "objects 1 / hostile stale 4 / call 1 store f abc / run 1 / call 1 store f abd / run 1 / call 1 load f / run 1",
        "1 took / 1 done stored / 1 object stored / 1 took / 1 took / 1 took / 1 done stored / 1 object stored / 1 took / 1 took / 1 halted 7 / view 1 / 1.1 put f %df85cc6b91940ee75600a9622c9e77c6fe347af5ec29780ad5a66253a16c4eac00000003 = done stored / 1.2 put f %883f609e9e44f439001de35a4c18a039bbf7e4cf7f0316735b5257e56147a6a400000003 = done stored / tags made",
        End::Whole,
    ),
];

/// Headers.
const HEADERS: [Row; 18] = [
    // A header with its key, with lines that are skipped, and one behind which nothing comes.
    (
        "clients 2 / # the key /  / key 0b / # the server /  / hostile fork 0 / #  / call 1 put a x / run 1 / call 2 get a / run 2",
        "1 done stored / 1 took / 1 took / 2 done none / 2 took / 2 took / view 1 / 1.1 put a x = done stored / view 2 / 2.1 get a = done none / agree 1 2 0 / tags made",
        End::Whole,
    ),
    (
        "clients 2 / hostile swap 0",
        "view 1 / view 2 / agree 1 2 0 / tags made",
        End::Whole,
    ),
    // Out of its place: first, twice, before the key, before the group's line, and behind a call, which begins the events.
    (
        "hostile fork 0",
        "line 1: not a line of this script",
        End::Bad,
    ),
    (
        "clients 1 / hostile fork 0 / hostile fork 0",
        "line 3: not a line of this script",
        End::Bad,
    ),
    (
        "clients 1 / hostile fork 0 / key 0b",
        "line 3: not a line of this script",
        End::Bad,
    ),
    (
        "clients 1 / hostile fork 0 / clients 1",
        "line 3: not a line of this script",
        End::Bad,
    ),
    (
        "clients 1 / call 1 put a x / hostile fork 0",
        "line 3: not a line of this script",
        End::Bad,
    ),
    (
        "clients 1 / call 1 put a x / run 1 / hostile fork 0",
        "1 done stored / 1 took / 1 took / line 4: not a line of this script",
        End::Bad,
    ),
    // Names that tell no kind, and numbers that are none or too large.
    (
        "clients 1 / hostile honest 0",
        "line 2: not a line of this script",
        End::Bad,
    ),
    (
        "clients 1 / hostile Fork 0",
        "line 2: not a line of this script",
        End::Bad,
    ),
    (
        "clients 1 / hostile bad-proof 0",
        "line 2: not a line of this script",
        End::Bad,
    ),
    (
        "clients 1 / hostile fork",
        "line 2: not a line of this script",
        End::Bad,
    ),
    (
        "clients 1 / hostile fork 01",
        "line 2: not a line of this script",
        End::Bad,
    ),
    (
        "clients 1 / hostile fork 1000001",
        "line 2: not a line of this script",
        End::Bad,
    ),
    (
        "clients 1 / hostile fork 0 0",
        "line 2: not a line of this script",
        End::Bad,
    ),
    (
        "clients 1 / hostile 0 fork",
        "line 2: not a line of this script",
        End::Bad,
    ),
    // Behind it the lines are bad as behind any header.
    (
        "objects 1 / hostile fork 0 / call 1 put a x",
        "line 3: not a line of this script",
        End::Bad,
    ),
    (
        "clients 1 / hostile truncate 0 / call 1 put a x / run 1 / call 1 get a",
        "1 halted 1 / line 5: client has halted",
        End::Bad,
    ),
];

/// The lines that a text with ` / ` between them stands for.
fn lines_of(alloc: Global, text: &str) -> Result<Bytes, NoMemory> {
    let mut lines = Bytes::new(alloc);
    for line in text.split(" / ") {
        lines.append(line.as_bytes())?;
        lines.push(b'\n')?;
    }
    Ok(lines)
}

/// Whether the run of a row's script prints what the row says, and ends so.
fn prints(alloc: Global, row: &Row) -> Result<bool, NoMemory> {
    let (script, text) = (lines_of(alloc, row.0)?, lines_of(alloc, row.1)?);
    let played = play(alloc, script.as_slice())?;
    Ok(played.text.as_slice() == text.as_slice() && played.end == row.2)
}

#[test]
fn kinds(rt: HostRuntime) -> Result<(), Fail> {
    for row in KINDS.iter() {
        assert!(rt; prints(rt.alloc(), row)?, "{}", row.0);
    }
    Ok(())
}

#[test]
fn courses(rt: HostRuntime) -> Result<(), Fail> {
    for row in COURSES.iter() {
        assert!(rt; prints(rt.alloc(), row)?, "{}", row.0);
    }
    Ok(())
}

#[test]
fn objects(rt: HostRuntime) -> Result<(), Fail> {
    for row in OBJECTS.iter() {
        assert!(rt; prints(rt.alloc(), row)?, "{}", row.0);
    }
    Ok(())
}

#[test]
fn headers(rt: HostRuntime) -> Result<(), Fail> {
    for row in HEADERS.iter() {
        assert!(rt; prints(rt.alloc(), row)?, "{}", row.0);
    }
    Ok(())
}
