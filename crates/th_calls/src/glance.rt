//! Calls of th_glance.
use std::alloc::Global;
use std::sync::Wait;
use th_glance::{Eye, Pen};

pub fn write(alloc: Global) {
    if let Ok((mut pen, mut eye)) = Pen::open(alloc) {
        pen.store(false);
        pen.covers(&mut eye);
    }
}

pub fn look(eye: &mut Eye) -> u64 {
    let _ = eye.glance();
    let _ = eye.learn(7);
    let _ = eye.split();
    eye.count()
}

pub fn catch_up(rt: &impl Wait, eye: &mut Eye) {
    eye.catch_up(rt, 7);
}
