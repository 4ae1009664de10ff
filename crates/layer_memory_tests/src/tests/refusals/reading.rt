//! Loaders with growths refused as requested.

use super::super::Host;
use super::super::comparing::same;
use super::{answered, ended};
use test_support::growths::{Call, Run, has_refused, refuse};
use test_support::sets::Set;
use tl_load::{LoadFault, Loader, SlowSource, Source};

/// After a fault, a loader returns it when asked to read a source, and reads nothing.
fn reads_nothing(rt: &impl Host, loader: &mut Loader, fault: LoadFault) {
    assert!(rt; loader.parts() < 2, "one part was fed at most");
    let mut source = SlowSource::new(b"8\n", 1, None);
    let answer = loader.read_part(&mut source);
    assert!(rt; source.failures() == 0, "no read failed");
    let mut first = [0];
    let is_read = source.read(&mut first).is_ok();
    let found = (answer, is_read, first);
    same(rt, "read_part", &found, &(Err(fault), true, *b"8"));
}

/// After a fault, a loader returns it when fed, and at a part's end.
fn takes_nothing(rt: &impl Host, loader: &mut Loader, fault: LoadFault) {
    assert!(rt; loader.parts() < 2, "one part was fed at most");
    let found = (loader.feed(b"8\n"), loader.end_part());
    same(rt, "feed, end_part", &found, &(Err(fault), Err(fault)));
}

/// After a fault, a loader returns it from each call, and keeps its number of parts.
fn stands(rt: &impl Host, loader: &mut Loader, fault: LoadFault) {
    let parts = loader.parts();
    takes_nothing(rt, loader, fault);
    reads_nothing(rt, loader, fault);
    same(rt, "parts", &loader.parts(), &parts);
}

/// The run of a loader with this result so far. If it is a fault, every later call must return it too; otherwise the loader is finished.
fn finished(rt: &impl Host, loader: Loader, so_far: Result<(), LoadFault>) -> Run {
    let mut loader = loader;
    match so_far {
        Ok(()) => ended(rt, loader.finish()),
        Err(fault) => {
            let refused = has_refused(rt.alloc());
            stands(rt, &mut loader, fault);
            same(rt, "finish", &loader.finish().err(), &Some(fault));
            answered::<(), LoadFault>(rt, refused, Err(fault))
        }
    }
}

/// The loader's end completes the last line.
pub(super) struct Feed;

impl<R: Host> Call<R> for Feed {
    fn run(&self, rt: &R, set: &Set<'_>, asked: usize) -> Run {
        let piece = set.bytes.strip_suffix(b"\n").unwrap_or(set.bytes);
        let mut loader = Loader::new(rt.alloc());
        refuse(rt.alloc(), asked);
        let so_far = loader.feed(piece);
        finished(rt, loader, so_far)
    }
}

/// The part's end completes the last line.
pub(super) struct EndPart;

impl<R: Host> Call<R> for EndPart {
    fn run(&self, rt: &R, set: &Set<'_>, asked: usize) -> Run {
        let piece = set.bytes.strip_suffix(b"\n").unwrap_or(set.bytes);
        let mut loader = Loader::new(rt.alloc());
        refuse(rt.alloc(), asked);
        let so_far = match loader.feed(piece) {
            Ok(()) => loader.end_part(),
            Err(fault) => Err(fault),
        };
        finished(rt, loader, so_far)
    }
}

pub(super) struct ReadPart;

impl<R: Host> Call<R> for ReadPart {
    fn run(&self, rt: &R, set: &Set<'_>, asked: usize) -> Run {
        let mut source = SlowSource::new(set.bytes, 100, None);
        let mut loader = Loader::new(rt.alloc());
        refuse(rt.alloc(), asked);
        let so_far = loader.read_part(&mut source);
        finished(rt, loader, so_far)
    }
}
