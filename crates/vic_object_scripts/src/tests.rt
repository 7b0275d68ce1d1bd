//! Scripts with what they print. What each prints was worked out by hand from the rules, and the hashes of contents by another program.

use std::alloc::Global;
use std::test::Fail;
use vic_dict::{Bytes, NoMemory};
use vic_group::play::{End, play};

/// A script and what it prints, each with ` / ` between its lines, and how it ends.
type Row = (&'static str, &'static str, End);

const ROWS: [Row; 34] = [
    // A load of a name that isn't there.
    (
        "objects 1 / call 1 load f / run 1",
        "1 done none / 1 object missing / 1 took / 1 took / view 1 / 1.1 get f = done none / tags made",
        End::Whole,
    ),
    // A group in which nothing is done.
    (
        "objects 2",
        "view 1 / view 2 / agree 1 2 0 / tags made",
        End::Whole,
    ),
    // A content of no bytes.
    (
        "objects 1 / call 1 store f zeros:0 / run 1 / call 1 load f / run 1",
        "1 took / 1 done stored / 1 object stored / 1 took / 1 took / 1 done value %67586e98fad27da0b9968bc039a1ef34c939b9b8e523a8bef89d478608c5ecf600000000 / 1 took / 1 took / 1 object content 0 % / view 1 / 1.1 put f %67586e98fad27da0b9968bc039a1ef34c939b9b8e523a8bef89d478608c5ecf600000000 = done stored / 1.2 get f = done value %67586e98fad27da0b9968bc039a1ef34c939b9b8e523a8bef89d478608c5ecf600000000 / tags made",
        End::Whole,
    ),
    // A content of 40 bytes, of which the first 32 are printed.
    (
        "objects 1 / call 1 store f 0123456789abcdefghijklmnopqrstuvwxyzABCD / run 1 / call 1 load f / run 1",
        "1 took / 1 done stored / 1 object stored / 1 took / 1 took / 1 done value %978b85894821035dc5a15da8caabf8d088591db1efe5bcf7d423f8c11e80951000000028 / 1 took / 1 took / 1 object content 40 0123456789abcdefghijklmnopqrstuv / view 1 / 1.1 put f %978b85894821035dc5a15da8caabf8d088591db1efe5bcf7d423f8c11e80951000000028 = done stored / 1.2 get f = done value %978b85894821035dc5a15da8caabf8d088591db1efe5bcf7d423f8c11e80951000000028 / tags made",
        End::Whole,
    ),
    // One client stores, and another loads.
    (
        "objects 2 / call 1 store f abc / run 1 / call 2 load f / run 2",
        "1 took / 1 done stored / 1 object stored / 1 took / 1 took / 2 done value %df85cc6b91940ee75600a9622c9e77c6fe347af5ec29780ad5a66253a16c4eac00000003 / 2 took / 2 took / 2 object content 3 abc / view 1 / 1.1 put f %df85cc6b91940ee75600a9622c9e77c6fe347af5ec29780ad5a66253a16c4eac00000003 = done stored / view 2 / 1.1 put f %df85cc6b91940ee75600a9622c9e77c6fe347af5ec29780ad5a66253a16c4eac00000003 = done stored / 2.1 get f = done value %df85cc6b91940ee75600a9622c9e77c6fe347af5ec29780ad5a66253a16c4eac00000003 / agree 1 2 1 / tags made",
        End::Whole,
    ),
    // The content that was stored last.
    (
        "objects 1 / call 1 store f abc / run 1 / call 1 store f abd / run 1 / call 1 load f / run 1",
        "1 took / 1 done stored / 1 object stored / 1 took / 1 took / 1 took / 1 done stored / 1 object stored / 1 took / 1 took / 1 done value %883f609e9e44f439001de35a4c18a039bbf7e4cf7f0316735b5257e56147a6a400000003 / 1 took / 1 took / 1 object content 3 abd / view 1 / 1.1 put f %df85cc6b91940ee75600a9622c9e77c6fe347af5ec29780ad5a66253a16c4eac00000003 = done stored / 1.2 put f %883f609e9e44f439001de35a4c18a039bbf7e4cf7f0316735b5257e56147a6a400000003 = done stored / 1.3 get f = done value %883f609e9e44f439001de35a4c18a039bbf7e4cf7f0316735b5257e56147a6a400000003 / tags made",
        End::Whole,
    ),
    // Two stores of one content.
    (
        "objects 1 / call 1 store f abc / run 1 / call 1 store g abc / run 1 / call 1 load g / run 1",
        "1 took / 1 done stored / 1 object stored / 1 took / 1 took / 1 took / 1 done stored / 1 object stored / 1 took / 1 took / 1 done value %df85cc6b91940ee75600a9622c9e77c6fe347af5ec29780ad5a66253a16c4eac00000003 / 1 took / 1 took / 1 object content 3 abc / view 1 / 1.1 put f %df85cc6b91940ee75600a9622c9e77c6fe347af5ec29780ad5a66253a16c4eac00000003 = done stored / 1.2 put g %df85cc6b91940ee75600a9622c9e77c6fe347af5ec29780ad5a66253a16c4eac00000003 = done stored / 1.3 get g = done value %df85cc6b91940ee75600a9622c9e77c6fe347af5ec29780ad5a66253a16c4eac00000003 / tags made",
        End::Whole,
    ),
    // A name is erased, and then once more.
    (
        "objects 1 / call 1 store f abc / run 1 / call 1 erase f / run 1 / call 1 erase f / run 1 / call 1 load f / run 1",
        "1 took / 1 done stored / 1 object stored / 1 took / 1 took / 1 done removed / 1 object removed / 1 took / 1 took / 1 done absent / 1 object absent / 1 took / 1 took / 1 done none / 1 object missing / 1 took / 1 took / view 1 / 1.1 put f %df85cc6b91940ee75600a9622c9e77c6fe347af5ec29780ad5a66253a16c4eac00000003 = done stored / 1.2 del f = done removed / 1.3 del f = done absent / 1.4 get f = done none / tags made",
        End::Whole,
    ),
    // Names with a prefix, and none.
    (
        "objects 1 / call 1 store b x / run 1 / call 1 store a y / run 1 / call 1 names % / run 1 / call 1 names c / run 1",
        "1 took / 1 done stored / 1 object stored / 1 took / 1 took / 1 took / 1 done stored / 1 object stored / 1 took / 1 took / 1 done names a b / 1 object names a b / 1 took / 1 took / 1 done names / 1 object names / 1 took / 1 took / view 1 / 1.1 put b %745054c95f79517f390481ee63e45a148ef6426a560572122838fd34f4915f4400000001 = done stored / 1.2 put a %ba55310ee1fc1bafc46cc668aea2915862f2c317aa001bef1942dc5606db8b5f00000001 = done stored / 1.3 list % = done names a b / 1.4 list c = done names / tags made",
        End::Whole,
    ),
    // Two stores of one name at once: the second call is aborted.
    (
        "objects 2 / call 1 store f abc / call 2 store f abd / serve 1 / serve 2 / take 1 / take 2 / serve 1 / serve 2 / take 1 / take 2",
        "1 took / 2 took / 1 done stored / 1 object stored / 2 aborted 1 / 2 object aborted 1 / view 1 / 1.1 put f %df85cc6b91940ee75600a9622c9e77c6fe347af5ec29780ad5a66253a16c4eac00000003 = done stored / view 2 / 1.1 put f %df85cc6b91940ee75600a9622c9e77c6fe347af5ec29780ad5a66253a16c4eac00000003 = done stored / 2.1 put f %883f609e9e44f439001de35a4c18a039bbf7e4cf7f0316735b5257e56147a6a400000003 = aborted 1 / agree 1 2 1 / tags made",
        End::Whole,
    ),
    // A load while another's unfinished call holds back the seals: its content comes all the same.
    (
        "objects 2 / call 2 store g abd / serve 2 / take 2 / serve 2 / call 1 store f abc / run 1 / call 1 load f / run 1",
        "2 took / 1 took / 1 done stored / 1 object stored / 1 took / 1 done value %df85cc6b91940ee75600a9622c9e77c6fe347af5ec29780ad5a66253a16c4eac00000003 / 1 took / 1 object content 3 abc / view 1 / 1.1 put f %df85cc6b91940ee75600a9622c9e77c6fe347af5ec29780ad5a66253a16c4eac00000003 = done stored / 1.2 get f = done value %df85cc6b91940ee75600a9622c9e77c6fe347af5ec29780ad5a66253a16c4eac00000003 / view 2 / agree 1 2 0 / tags made",
        End::Whole,
    ),
    // A server that forgets an entry which its client has learned of: the load is refused.
    (
        "objects 1 / call 1 store f abc / run 1 / copy 1 2 / call 1 store f abd / run 1 / move 1 2 / call 1 load f / run 1",
        "1 took / 1 done stored / 1 object stored / 1 took / 1 took / 1 took / 1 done stored / 1 object stored / 1 took / 1 took / 1 refused 5 / 1 object refused 5 / view 1 / 1.1 put f %df85cc6b91940ee75600a9622c9e77c6fe347af5ec29780ad5a66253a16c4eac00000003 = done stored / 1.2 put f %883f609e9e44f439001de35a4c18a039bbf7e4cf7f0316735b5257e56147a6a400000003 = done stored / tags made",
        End::Whole,
    ),
    // The same of a store: its content is kept, and its call is refused.
    (
        "objects 1 / call 1 store f abc / run 1 / copy 1 2 / call 1 store f abd / run 1 / move 1 2 / call 1 store g x / run 1",
        "1 took / 1 done stored / 1 object stored / 1 took / 1 took / 1 took / 1 done stored / 1 object stored / 1 took / 1 took / 1 took / 1 refused 5 / 1 object refused 5 / view 1 / 1.1 put f %df85cc6b91940ee75600a9622c9e77c6fe347af5ec29780ad5a66253a16c4eac00000003 = done stored / 1.2 put f %883f609e9e44f439001de35a4c18a039bbf7e4cf7f0316735b5257e56147a6a400000003 = done stored / tags made",
        End::Whole,
    ),
    // A content with another first byte than the one that was stored.
    (
        "objects 1 / call 1 store f abc / run 1 / call 1 load f / serve 1 / take 1 / serve 1 / take 1 / serve 1 / take 1 / serve 1 / flip 1 1",
        "1 took / 1 done stored / 1 object stored / 1 took / 1 took / 1 done value %df85cc6b91940ee75600a9622c9e77c6fe347af5ec29780ad5a66253a16c4eac00000003 / 1 took / 1 took / 1 halted 9 / view 1 / 1.1 put f %df85cc6b91940ee75600a9622c9e77c6fe347af5ec29780ad5a66253a16c4eac00000003 = done stored / 1.2 get f = done value %df85cc6b91940ee75600a9622c9e77c6fe347af5ec29780ad5a66253a16c4eac00000003 / tags made",
        End::Whole,
    ),
    // A content of another length.
    (
        "objects 1 / call 1 store f abc / run 1 / call 1 load f / serve 1 / take 1 / serve 1 / take 1 / serve 1 / take 1 / give 1 %4861626364",
        "1 took / 1 done stored / 1 object stored / 1 took / 1 took / 1 done value %df85cc6b91940ee75600a9622c9e77c6fe347af5ec29780ad5a66253a16c4eac00000003 / 1 took / 1 took / 1 halted 9 / view 1 / 1.1 put f %df85cc6b91940ee75600a9622c9e77c6fe347af5ec29780ad5a66253a16c4eac00000003 = done stored / 1.2 get f = done value %df85cc6b91940ee75600a9622c9e77c6fe347af5ec29780ad5a66253a16c4eac00000003 / tags made",
        End::Whole,
    ),
    // The server says that it has no such content.
    (
        "objects 1 / call 1 store f abc / run 1 / call 1 load f / serve 1 / take 1 / serve 1 / take 1 / serve 1 / take 1 / give 1 %4a",
        "1 took / 1 done stored / 1 object stored / 1 took / 1 took / 1 done value %df85cc6b91940ee75600a9622c9e77c6fe347af5ec29780ad5a66253a16c4eac00000003 / 1 took / 1 took / 1 halted 9 / view 1 / 1.1 put f %df85cc6b91940ee75600a9622c9e77c6fe347af5ec29780ad5a66253a16c4eac00000003 = done stored / 1.2 get f = done value %df85cc6b91940ee75600a9622c9e77c6fe347af5ec29780ad5a66253a16c4eac00000003 / tags made",
        End::Whole,
    ),
    // Another message than the one that is awaited.
    (
        "objects 1 / call 1 store f abc / give 1 %43",
        "1 halted 1 / view 1 / tags made",
        End::Whole,
    ),
    // A content that is refused: the store is over, and no call was made.
    (
        "objects 1 / call 1 store f abc / give 1 %4607 / call 1 load f",
        "1 object refused 7 / view 1 / tags made",
        End::Whole,
    ),
    // A key of the group.
    (
        "objects 1 / key 0b / call 1 load f / run 1",
        "1 done none / 1 object missing / 1 took / 1 took / view 1 / 1.1 get f = done none / tags made",
        End::Whole,
    ),
    // Calls of the other kind of group.
    (
        "objects 1 / call 1 put a x",
        "line 2: not a line of this script",
        End::Bad,
    ),
    (
        "objects 1 / call 1 get a",
        "line 2: not a line of this script",
        End::Bad,
    ),
    (
        "clients 1 / call 1 load a",
        "line 2: not a line of this script",
        End::Bad,
    ),
    (
        "clients 1 / call 1 store a x",
        "line 2: not a line of this script",
        End::Bad,
    ),
    // Texts past their limits.
    (
        "objects 1 / call 1 store % x",
        "line 2: not a line of this script",
        End::Bad,
    ),
    (
        "objects 1 / call 1 store f zeros:8388609",
        "line 2: not a line of this script",
        End::Bad,
    ),
    (
        "objects 1 / call 1 store f zeros:00",
        "line 2: not a line of this script",
        End::Bad,
    ),
    // A client that awaits an answer, one that isn't there, and one that has halted.
    (
        "objects 1 / call 1 store f abc / call 1 load f",
        "line 3: client is busy",
        End::Bad,
    ),
    (
        "objects 1 / call 2 load f",
        "line 2: no such client",
        End::Bad,
    ),
    (
        "objects 1 / give 1 % / call 1 load f",
        "1 halted 1 / line 3: client has halted",
        End::Bad,
    ),
    // Headers.
    ("objects 0", "line 1: not a line of this script", End::Bad),
    ("objects 65", "line 1: not a line of this script", End::Bad),
    (
        "objects 1 / objects 1",
        "line 2: not a line of this script",
        End::Bad,
    ),
    (
        "objects 1 / clients 1",
        "line 2: not a line of this script",
        End::Bad,
    ),
    (
        "objects 1 / key 0b / key 0b",
        "line 3: not a line of this script",
        End::Bad,
    ),
];

/// The longest content that there may be.
const LONGEST: Row = (
    "objects 1 / call 1 store f zeros:8388608 / run 1 / call 1 load f / run 1",
    "1 took / 1 done stored / 1 object stored / 1 took / 1 took / 1 done value %efc2a8ab3524d20ff2209db006dd8468272e6879b50b4f33a87d84cb49597eb000800000 / 1 took / 1 took / 1 object content 8388608 %0000000000000000000000000000000000000000000000000000000000000000 / view 1 / 1.1 put f %efc2a8ab3524d20ff2209db006dd8468272e6879b50b4f33a87d84cb49597eb000800000 = done stored / 1.2 get f = done value %efc2a8ab3524d20ff2209db006dd8468272e6879b50b4f33a87d84cb49597eb000800000 / tags made",
    End::Whole,
);

/// The lines that a text with ` / ` between them stands for.
fn lines_of(alloc: Global, text: &str) -> Result<Bytes, NoMemory> {
    let mut lines = Bytes::new(alloc);
    for line in text.split(" / ") {
        lines.append(line.as_bytes())?;
        lines.push(b'\n')?;
    }
    Ok(lines)
}

/// Whether the run of a row's script prints what the row says, and ends so.
fn prints(alloc: Global, row: &Row) -> Result<bool, NoMemory> {
    let (script, text) = (lines_of(alloc, row.0)?, lines_of(alloc, row.1)?);
    let played = play(alloc, script.as_slice())?;
    Ok(played.text.as_slice() == text.as_slice() && played.end == row.2)
}

#[test]
fn rows(rt: HostRuntime) -> Result<(), Fail> {
    for row in ROWS.iter() {
        assert!(rt; prints(rt.alloc(), row)?, "{}", row.0);
    }
    Ok(())
}

#[test]
fn longest_content(rt: HostRuntime) -> Result<(), Fail> {
    assert!(rt; prints(rt.alloc(), &LONGEST)?);
    Ok(())
}
