//! An example of the libraries: reads a policy, asks who may run what, edits the policy and takes the edits back, and converts it.
#![tactic(auto)]

use std::alloc::Global;
use std::io::Write;
use std::process::ExitCode;
use sudoers_cvt::{Rules, filter_policy, json, print, read_filter};
use sudoers_edit::{Editor, read_script, write_script};
use sudoers_list::{People, list, request_for, who_for};
use sudoers_match::{Who, answer};
use sudoers_tree::{Items, Policy};

const POLICY: &[u8] = b"User_Alias WEB = ann, bob # the web team\n\
    WEB www1 = (root) NOPASSWD: /usr/bin/systemctl restart nginx\n\
    eve ALL = ALL\n";

const PASSWD: &[u8] = b"root:x:0:0::/root:/bin/sh\nann:x:1001:1001::/home/ann:/bin/sh\n";

const GROUP: &[u8] = b"root:x:0:\nann:x:1001:\n";

const COMMAND: [&[u8]; 3] = [b"/usr/bin/systemctl", b"restart", b"nginx"];

const MOMENT: &[u8] = b"20260131120000Z";

const SCRIPT: &[u8] = b"drop user WEB 2\nrename user WEB CREW\n";

const FILTER: &[u8] = b"user=ann";

/// Why the example stopped.
#[derive(Drop)]
struct Stopped(&'static str);

fn main(rt: HostRuntime) -> ExitCode {
    match run(&rt) {
        Ok(()) => ExitCode::from(0),
        Err(stopped) => {
            let _ = rt.stderr().write_all(stopped.0.as_bytes());
            ExitCode::from(1)
        }
    }
}

/// Runs each part, and prints what comes of it.
fn run(rt: &HostRuntime) -> Result<(), Stopped> {
    let Ok(policy) = Policy::read(rt.alloc(), POLICY) else {
        return Err(Stopped("no policy\n"));
    };
    ask(rt, &policy)?;
    let editor = edit(rt, policy)?;
    convert(rt, editor.policy())
}

/// Prints what ann may run, and whether she may run the command.
fn ask(rt: &HostRuntime, policy: &Policy) -> Result<(), Stopped> {
    let alloc = rt.alloc();
    let Ok(people) = People::read(alloc, PASSWD, GROUP) else {
        return Err(Stopped("no people\n"));
    };
    let Ok(who) = who_for(alloc, &people, b"ann", b"www1", b"") else {
        return Err(Stopped("no user\n"));
    };
    match list(alloc, policy, &who) {
        Ok(listing) => write(rt, listing.as_slice())?,
        Err(_) => return Err(Stopped("no listing\n")),
    }
    if is_allowed(alloc, policy, &people, who)? {
        write(rt, b"the command is allowed\n")
    } else {
        write(rt, b"the command is denied\n")
    }
}

/// Returns whether `who` may run the command as root.
fn is_allowed(alloc: Global, policy: &Policy, people: &People, who: Who) -> Result<bool, Stopped> {
    let Ok(words) = copy_command_words(alloc) else {
        return Err(Stopped("no memory\n"));
    };
    let Ok(request) = request_for(alloc, people, who, b"root", None, words.as_slice(), MOMENT)
    else {
        return Err(Stopped("no request\n"));
    };
    match answer(alloc, policy, &request) {
        Ok(Some(answer)) => Ok(answer.allow),
        Ok(None) => Ok(false),
        Err(_) => Err(Stopped("no answer\n")),
    }
}

/// Returns the words of the command.
fn copy_command_words(alloc: Global) -> Result<Items<Items<u8>>, std::alloc::AllocError> {
    let mut words = Items::new(alloc);
    for word in COMMAND {
        words.push(Items::from_slice(alloc, word)?)?;
    }
    Ok(words)
}

/// Edits `policy`. Prints its text, and the script that takes the edits back.
fn edit(rt: &HostRuntime, policy: Policy) -> Result<Editor, Stopped> {
    let Ok(edits) = read_script(rt.alloc(), SCRIPT) else {
        return Err(Stopped("no script\n"));
    };
    let mut editor = Editor::new(policy);
    if editor.apply_all(edits.as_slice()).is_err() {
        return Err(Stopped("refused\n"));
    }
    let (Ok(text), Ok(inverse)) = (editor.policy().text(0), editor.inverse()) else {
        return Err(Stopped("no memory\n"));
    };
    let Ok(undo) = write_script(rt.alloc(), inverse.as_slice()) else {
        return Err(Stopped("no inverse\n"));
    };
    write(rt, text.as_slice())?;
    write(rt, undo.as_slice())?;
    Ok(editor)
}

/// Prints the rules of `policy` for ann, and all its rules as JSON.
fn convert(rt: &HostRuntime, policy: &Policy) -> Result<(), Stopped> {
    let alloc = rt.alloc();
    let Ok(filter) = read_filter(alloc, FILTER) else {
        return Err(Stopped("no filter\n"));
    };
    let Ok(kept) = filter_policy(alloc, policy, &filter, false) else {
        return Err(Stopped("not filtered\n"));
    };
    let Ok(rules) = kept.collect_used_rules(alloc) else {
        return Err(Stopped("no memory\n"));
    };
    match print(alloc, &rules) {
        Ok(text) => write(rt, text.as_slice())?,
        Err(_) => return Err(Stopped("not printed\n")),
    }
    let Ok(rules) = Rules::from_policy_lines(alloc, &policy.lines()) else {
        return Err(Stopped("no memory\n"));
    };
    match json(alloc, &rules) {
        Ok(text) => write(rt, text.as_slice()),
        Err(_) => Err(Stopped("no JSON\n")),
    }
}

/// Writes `bytes` to standard output.
fn write(rt: &HostRuntime, bytes: &[u8]) -> Result<(), Stopped> {
    match rt.stdout().write_all(bytes) {
        Ok(()) => Ok(()),
        Err(_) => Err(Stopped("not written\n")),
    }
}
