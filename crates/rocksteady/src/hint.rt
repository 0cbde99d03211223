// What is said of a refused script on standard error.

/// What the code of a refusal means, in one line; none if there is no such code.
pub(crate) fn meaning(code: u8) -> Option<&'static str> {
    let text = match code {
        1 => "code 1: there is no such command, operation or reach",
        2 => "code 2: there are too few words, or too many",
        3 => "code 3: a number or a hash is not written as it should be, or out of its range",
        4 => "code 4: a key has more than 250 bytes",
        5 => "code 5: a value has more than 65,000 bytes",
        6 => "code 6: a byte is neither a blank, a tab nor a printed character",
        7 => "code 7: the command comes too late",
        8 => "code 8: it is there already",
        9 => "code 9: there is no such master, table, tablet or client",
        10 => "code 10: the client has an outstanding call",
        11 => "code 11: the client has no outstanding call, or has sent no request yet",
        12 => "code 12: in some lane the tablet is not owned by a master that lives",
        13 => "code 13: the master owns the tablet in every lane",
        14 => "code 14: a master that is needed has crashed",
        15 => "code 15: it is the last master that lives",
        16 => "code 16: in no lane is the tablet in a migration that is short of this",
        17 => "code 17: there is no such place on the wire",
        18 => "code 18: a limit is reached already",
        19 => "code 19: the hash does not split the tablet",
        20 => "code 20: the script has more than 16,777,216 bytes",
        21 => "code 21: the master has not crashed",
        _ => return None,
    };
    Some(text)
}
