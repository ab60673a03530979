// The errors of a negative answer under PROFIBUS DP, by class and code.
use crate::text::text;
use std::io;

pub(crate) fn class_name(rt: &impl Print, class: u8) -> io::Result<()> {
    match class {
        10 => text(rt, b"application error"),
        11 => text(rt, b"access error"),
        12 => text(rt, b"resource error"),
        _ => text(rt, b"user specific"),
    }
}

fn application_code(rt: &impl Print, code: u8) -> io::Result<()> {
    match code {
        0 => text(rt, b"read error"),
        1 => text(rt, b"write error"),
        2 => text(rt, b"module failure"),
        8 => text(rt, b"version conflict"),
        9 => text(rt, b"feature not supported"),
        _ => text(rt, b"user specific"),
    }
}

fn access_code(rt: &impl Print, code: u8) -> io::Result<()> {
    match code {
        0 => text(rt, b"invalid index"),
        1 => text(rt, b"write length error"),
        2 => text(rt, b"invalid slot"),
        3 => text(rt, b"type conflict"),
        4 => text(rt, b"invalid area"),
        5 => text(rt, b"state conflict"),
        6 => text(rt, b"access denied"),
        7 => text(rt, b"invalid range"),
        8 => text(rt, b"invalid parameter"),
        9 => text(rt, b"invalid type"),
        _ => text(rt, b"user specific"),
    }
}

fn resource_code(rt: &impl Print, code: u8) -> io::Result<()> {
    match code {
        0 => text(rt, b"read constraint conflict"),
        1 => text(rt, b"write constraint conflict"),
        2 => text(rt, b"resource busy"),
        3 => text(rt, b"resource unavailable"),
        8 => text(rt, b"version conflict"),
        _ => text(rt, b"user specific"),
    }
}

pub(crate) fn code_name(rt: &impl Print, class: u8, code: u8) -> io::Result<()> {
    match class {
        10 => application_code(rt, code),
        11 => access_code(rt, code),
        12 => resource_code(rt, code),
        _ => text(rt, b"user specific"),
    }
}
