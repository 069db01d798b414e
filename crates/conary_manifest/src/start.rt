// What the program does: it hands its words, a directory of the host and standard output to the library.
use crate::host_dir::HostDir;
use crate::host_out::HostOut;
use crate::host_owners::HostOwners;
use crate::said::{OK, OUT_OF_MEMORY, Said, told, usage};
use crate::words::{Request, read_words};
use cny_pack::cny_base::{FlowFault, OutOfMemory, Sink, StdSink, TextFault};
use cny_pack::{PackStop, Rules, Words, write_manifest};
use std::env;
use std::io::ErrorKind;

/// Runs the words of the command line, and answers the status.
pub(crate) fn start(rt: &HostRuntime) -> u8 {
    match start_words(rt) {
        Ok(status) => status,
        Err(OutOfMemory) => {
            say(rt, "conary-manifest: out of memory\n");
            OUT_OF_MEMORY
        }
    }
}

// Writes to standard error. Where that fails the status tells all that is left to tell.
fn say(rt: &HostRuntime, text: &str) {
    let mut err = StdSink::new(rt.stderr());
    let _ = err.give(text.as_bytes());
}

fn end(rt: &HostRuntime, said: Said) -> u8 {
    say(rt, said.text.as_str());
    said.status
}

// The words after the program's name. Words that aren't text are none, which is a usage error.
fn words_of(rt: &HostRuntime) -> Result<Vec<String>, OutOfMemory> {
    let mut words = Vec::new(rt.alloc());
    match env::args(rt) {
        Ok(args) => {
            for word in args.skip(1) {
                words.push(word)?;
            }
        }
        Err(e) if e.kind() == ErrorKind::OutOfMemory => return Err(OutOfMemory),
        Err(_) => {}
    }
    Ok(words)
}

fn start_words(rt: &HostRuntime) -> Result<u8, OutOfMemory> {
    let words = words_of(rt)?;
    match read_words(rt.alloc(), words.as_slice()) {
        Ok(request) => pack(rt, &request),
        Err(TextFault::Bad) => Ok(end(rt, usage(rt.alloc())?)),
        Err(TextFault::Memory) => Err(OutOfMemory),
    }
}

// Writes the manifest of the directory.
fn write(rt: &HostRuntime, request: &Request<'_>, disk: &mut HostDir<'_>) -> Result<(), PackStop> {
    let mut owners = HostOwners::new(rt, request.dir)?;
    let mut out = HostOut::new(rt.alloc(), rt.stdout());
    let words = Words {
        name: request.name,
        version: request.version,
        flavor: request.flavor,
        requires_: request.requires_.as_slice(),
        provides: request.provides.as_slice(),
    };
    let rules = Rules {
        config: request.config.as_slice(),
        skip: request.skip,
    };
    write_manifest(rt.alloc(), disk, &mut owners, words, rules, &mut out)?;
    match out.finish() {
        Ok(()) => Ok(()),
        Err(FlowFault::Failed) => Err(PackStop::SinkFailed),
        Err(FlowFault::Memory) => Err(PackStop::Memory),
    }
}

fn pack(rt: &HostRuntime, request: &Request<'_>) -> Result<u8, OutOfMemory> {
    let mut disk = HostDir::new(rt, request.dir, request.skip);
    match write(rt, request, &mut disk) {
        Ok(()) => Ok(OK),
        Err(stop) => Ok(end(rt, told(rt.alloc(), stop, &disk)?)),
    }
}
