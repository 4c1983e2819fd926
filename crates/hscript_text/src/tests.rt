//! A command file, one that is read command by command, and the refusals that command files give.
use super::*;
use sop_net::Net;
use std::test::Fail;

#[test]
fn a_script_is_read(rt: HostRuntime) -> Result<(), Fail> {
    let text = b"# a box\nset n = box\nopadd $n \"b\"\necho made ${n}\r\n";
    let script = read_script(rt.alloc(), text).expect(&rt, "it is well formed");
    assert_eq!(rt; script.net.nodes(), 1);
    assert_eq!(rt; script.echoed.as_slice(), &b"made box\n"[..]);
    Ok(())
}

#[test]
fn commands_are_carried_out_one_by_one(rt: HostRuntime) -> Result<(), Fail> {
    let text = b"set a = 'x y'\n\nopadd null n\necho \"$a\" z\nopadd $b\n";
    let mut reader = Reader::new(rt.alloc(), text).expect(&rt, "it is text");
    let mut net = Net::new(rt.alloc());
    for (line, words) in [(3, 3), (4, 3)] {
        let next = reader.next().expect(&rt, "it can be read");
        let command = next.expect(&rt, "a command");
        assert_eq!(rt; command.line, line);
        assert_eq!(rt; command.words.len(), words);
        let done = carry_out(&mut net, command.words.as_slice());
        assert_eq!(rt; done.is_ok(), line == 3);
    }
    assert_eq!(rt; net.nodes(), 1);
    match reader.next() {
        Err(end) => assert!(rt;
            end == ScriptEnd::Refused {
                line: 5,
                kind: ScriptKind::NoVar
            }
        ),
        Ok(_) => assert!(rt; false),
    }
    Ok(())
}

#[test]
fn the_first_refused_command_is_told(rt: HostRuntime) -> Result<(), Fail> {
    for (text, line, refusal) in [
        (&b"echo 'a\nb'\nopfoo\n"[..], 3, "BadCommand"),
        (b"\n echo \"a\nb\" $x\n", 2, "NoVar"),
        (b"opfoo\n\xff", 2, "BadBytes"),
        (b"echo \"\\q\"", 1, "Quote"),
        (b"set 9 = a", 1, "BadName"),
        (b"opadd 9", 1, "BadArgs"),
        (b"opadd null 9", 1, "BadName"),
        (b"oprm a", 1, "NoNode"),
        (b"opparm a b c", 1, "NoNode"),
        (b"opwire a 0 b", 1, "NoNode"),
    ] {
        match read_script(rt.alloc(), text) {
            Err(ScriptEnd::Refused { line: l, kind }) => {
                assert_eq!(rt; l, line);
                assert_eq!(rt; kind.name(), refusal);
            }
            _ => assert!(rt; false),
        }
    }
    Ok(())
}
