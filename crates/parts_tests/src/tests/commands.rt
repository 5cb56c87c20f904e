// Domains, and the faults of lines.
use super::{check_eq, check_words};
use vm_commands::{Command, Domain, LineFault, parse_line};

#[test]
fn a_domain_gives_its_word_back(rt: HostRuntime) {
    let command = parse_line(rt.alloc(), "start web", 4).expect(&rt, "a command");
    let Command::Start { domain } = command else {
        panic!(rt; "no start");
    };
    let word = domain.into_string();
    check_eq(&rt, word.as_str(), "web");
    check_eq(&rt, Domain::from(word).as_str(), "web");
    let other = Domain::new(rt.alloc(), "db").expect(&rt, "memory");
    check_eq(&rt, other.as_str(), "db");
}

#[test]
fn faults_read(rt: HostRuntime) {
    check_eq(&rt, LineFault::Bad as u8, 1);
    check_eq(&rt, LineFault::Size as u8, 2);
    check_eq(&rt, LineFault::Memory as u8, 3);
    check_words(&rt, rt.alloc(), LineFault::Memory, "out of memory");
}
