// A verdict or a refusal in words.
ghost use Rattle.std.specs.Prelude.{◌≡◌, ◌≤◌, length};
ghost use Rattle.reports.specs.Words.{refused_line, verdict_line, done_or_refused};

// None for a number that is no refusal.
#[tactic(auto, unfolding(crate::specs::Words::refused_line))]
pub fn refused_line(code: u8) -> &'static [u8]
    ensures words { result.now ≡ refused_line code }
    ensures within { length result.now ≤ 64 }
{
    match code {
        20 => b"refused 20 not listed\n",
        21 => b"refused 21 no value free\n",
        22 => b"refused 22 not open\n",
        23 => b"refused 23 still waiting\n",
        24 => b"refused 24 no such invoke\n",
        25 => b"refused 25 wrong parameter\n",
        26 => b"refused 26 message too long\n",
        27 => b"refused 27 buffer too short\n",
        28 => b"refused 28 table damaged\n",
        30 => b"refused 30 bad record\n",
        31 => b"refused 31 output too short\n",
        _ => b"",
    }
}

// A refusal too, as a received message may get one.
#[tactic(auto, unfolding(crate::specs::Words::verdict_line))]
pub fn verdict_line(code: u8) -> &'static [u8]
    ensures words { result.now ≡ verdict_line code }
    ensures within { length result.now ≤ 64 }
{
    match code {
        0 => b"verdict 0 taken\n",
        1 => b"verdict 1 ignored\n",
        2 => b"verdict 2 cause sent\n",
        3 => b"verdict 3 reject sent\n",
        4 => b"verdict 4 reject received\n",
        5 => b"verdict 5 network released\n",
        6 => b"verdict 6 too long\n",
        7 => b"verdict 7 other protocol\n",
        _ => refused_line(code),
    }
}

#[tactic(auto, unfolding(crate::specs::Words::done_or_refused))]
pub fn done_or_refused(code: u8) -> &'static [u8]
    ensures words { result.now ≡ done_or_refused code }
    ensures within { length result.now ≤ 64 }
{
    if code == 0 {
        b"done 0\n"
    } else {
        refused_line(code)
    }
}
