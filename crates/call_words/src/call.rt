// The calls of a script, each a line.
use script_words::word;
use sources::Profile;

// The longest answer memory.
pub const LENT_MAX: usize = 256;

// A call, with what its words say. A HEX is its bytes; `lent` is LENT.
#[derive(Clone, Copy)]
pub enum Call<'a> {
    Restart(Profile),
    Text {
        lent: usize,
        request: &'a [u8],
    },
    Line {
        lent: usize,
    },
    Opg {
        lent: usize,
        request: &'a [u8],
    },
    Bench {
        source: &'a [u8],
        value: &'a [u8],
    },
    // the bits of a pressure, or `none`
    OpgBench(Option<u32>),
    Request(Profile, &'a [u8]),
    OpgRequest(&'a [u8]),
    Reply {
        profile: Profile,
        from: u16,
        request: &'a [u8],
        reply: &'a [u8],
    },
    OpgReply {
        request: &'a [u8],
        reply: &'a [u8],
    },
    Write {
        lent: usize,
        request: Typed<'a>,
    },
}

// A typed request in words, and where it goes.
#[derive(Clone, Copy)]
pub enum Typed<'a> {
    V2(Profile, u16, &'a [&'a [u8]]),
    V1(u16, &'a [&'a [u8]]),
    Opg(&'a [&'a [u8]]),
}

// LENT.
fn lent_of(word: &[u8]) -> Option<usize> {
    let n = word::number(word, 3)?;
    if LENT_MAX < n {
        return None;
    }
    Some(n)
}

// ADDRESS.
fn address_of(word: &[u8]) -> Option<u16> {
    u16::try_from(word::number(word, 5)?).ok()
}

// The bytes of HEX, which are put into memory.
fn bytes_of<'a>(word: &[u8], memory: &'a mut [u8]) -> Option<&'a [u8]> {
    let (bytes, _) = word::bytes(word, memory)?;
    Some(bytes)
}

// The same of two HEX.
fn both_of<'a>(first: &[u8], second: &[u8], memory: &'a mut [u8]) -> Option<(&'a [u8], &'a [u8])> {
    let (one, left) = word::bytes(first, memory)?;
    Some((one, bytes_of(second, left)?))
}

// BITS.
fn bits_of(word: &[u8], memory: &mut [u8]) -> Option<u32> {
    let &[a, b, c, d] = bytes_of(word, memory)? else {
        return None;
    };
    Some(u32::from_be_bytes([a, b, c, d]))
}

// A profile's word, or no word for the third.
fn profile_of(words: &[&[u8]]) -> Option<Profile> {
    match words {
        [] => Some(Profile::Standard),
        [b"vsh"] => Some(Profile::Vsh),
        [b"vsm"] => Some(Profile::Vsm),
        _ => None,
    }
}

// Words and the profile that they end with, or the third.
fn part_profile<'a, 'b>(words: &'b [&'a [u8]]) -> (Profile, &'b [&'a [u8]]) {
    match words.split_last() {
        Some((&b"vsh", before)) => (Profile::Vsh, before),
        Some((&b"vsm", before)) => (Profile::Vsm, before),
        _ => (Profile::Standard, words),
    }
}

// The call of a line's words. The bytes of its HEX are put into memory.
pub fn read<'a>(words: &'a [&'a [u8]], memory: &'a mut [u8]) -> Option<Call<'a>> {
    match words {
        [b"restart", profile @ ..] => Some(Call::Restart(profile_of(profile)?)),
        [b"text", lent, request] => Some(Call::Text {
            lent: lent_of(lent)?,
            request: bytes_of(request, memory)?,
        }),
        [b"line", lent] => Some(Call::Line {
            lent: lent_of(lent)?,
        }),
        [b"opg", lent, request] => Some(Call::Opg {
            lent: lent_of(lent)?,
            request: bytes_of(request, memory)?,
        }),
        [b"bench", source, value] => Some(Call::Bench { source, value }),
        [b"opgbench", b"none"] => Some(Call::OpgBench(None)),
        [b"opgbench", bits] => Some(Call::OpgBench(Some(bits_of(bits, memory)?))),
        [b"request", request, profile @ ..] => Some(Call::Request(
            profile_of(profile)?,
            bytes_of(request, memory)?,
        )),
        [b"opgrequest", request] => Some(Call::OpgRequest(bytes_of(request, memory)?)),
        [b"reply", from, request, reply, profile @ ..] => {
            let (request, reply) = both_of(request, reply, memory)?;
            Some(Call::Reply {
                profile: profile_of(profile)?,
                from: address_of(from)?,
                request,
                reply,
            })
        }
        [b"opgreply", request, reply] => {
            let (request, reply) = both_of(request, reply, memory)?;
            Some(Call::OpgReply { request, reply })
        }
        [b"write2", lent, to, request @ ..] => {
            let (profile, request) = part_profile(request);
            Some(Call::Write {
                lent: lent_of(lent)?,
                request: Typed::V2(profile, address_of(to)?, request),
            })
        }
        [b"write1", lent, to, request @ ..] => Some(Call::Write {
            lent: lent_of(lent)?,
            request: Typed::V1(address_of(to)?, request),
        }),
        [b"writeopg", lent, request @ ..] => Some(Call::Write {
            lent: lent_of(lent)?,
            request: Typed::Opg(request),
        }),
        _ => None,
    }
}

impl<'a> Call<'a> {
    // How much memory the call is lent. A request that is read and written again is lent what its writer asks for.
    pub fn lent(self) -> usize {
        match self {
            Call::Text { lent, .. }
            | Call::Line { lent }
            | Call::Opg { lent, .. }
            | Call::Write { lent, .. } => lent,
            Call::Request(..) => 109,
            Call::OpgRequest(_) => 32,
            _ => 0,
        }
    }
}
