// States of `hostif` as numbers, and back. Written by `derive`.
ghost use Rattle.std.specs.Prelude.{◌≡◌};
ghost use Rattle.flat.specs.Hostif.{flat_request, the_request, flat_response, the_response, flat_command, the_command, flat_token, the_token, flat_token_call, the_token_call, flat_command_call, the_command_call};

#[repr(C)]
#[derive(Clone, Copy)]
pub struct RequestFlat {
    pub tag: u8,
    pub b1: u8,
    pub w0: u32,
    pub w1: u32,
}

#[repr(C)]
#[derive(Clone, Copy)]
pub struct ResponseFlat {
    pub tag: u8,
    pub b1: u8,
    pub w0: u32,
}

#[repr(C)]
#[derive(Clone, Copy)]
pub struct CommandFlat {
    pub tag: u8,
    pub b1: u8,
    pub b2: u8,
    pub b3: u8,
    pub b4: u8,
    pub b5: u8,
    pub b6: u8,
    pub b7: u8,
    pub b8: u8,
    pub b9: u8,
    pub b10: u8,
    pub b11: u8,
    pub w0: u32,
    pub w1: u32,
    pub w2: u32,
}

#[repr(C)]
#[derive(Clone, Copy)]
pub struct TokenFlat {
    pub b0: u8,
    pub b1: u8,
    pub b2: u8,
    pub b3: u8,
    pub b4: u8,
    pub b5: u8,
    pub b6: u8,
    pub b7: u8,
    pub b8: u8,
    pub b9: u8,
    pub b10: u8,
    pub b11: u8,
    pub w0: u32,
    pub w1: u32,
    pub w2: u32,
    pub w3: u32,
    pub w4: u32,
}

#[tactic(auto, unfolding(crate::specs::Hostif::flat_request))]
pub fn of_request(s: hostif::request::Request) -> RequestFlat
    ensures { result ≡ flat_request s }
{
    match s {
        hostif::request::Request::Fwsts(x0) => {
            let q0 = crate::of_hardware::of_update(x0);
            RequestFlat {
                tag: 0,
                b1: q0.tag,
                w0: q0.w0,
                w1: 0,
            }
        },
        hostif::request::Request::Hicr => RequestFlat {
            tag: 1,
            b1: 0,
            w0: 0,
            w1: 0,
        },
        hostif::request::Request::Word(x0, x1) => RequestFlat {
            tag: 2,
            b1: x1,
            w0: x0,
            w1: 0,
        },
        hostif::request::Request::Start(x0) => RequestFlat {
            tag: 3,
            b1: 0,
            w0: x0,
            w1: 0,
        },
        hostif::request::Request::Polling(x0) => {
            let q0 = crate::of_hardware::of_poll(x0);
            RequestFlat {
                tag: 4,
                b1: q0.tag,
                w0: q0.w0,
                w1: q0.w1,
            }
        },
    }
}

#[tactic(auto, unfolding(crate::specs::Hostif::the_request))]
pub fn request(b: RequestFlat) -> hostif::request::Request
    ensures { result ≡ the_request b }
{
    let tag = b.tag;
    match tag {
        0 => hostif::request::Request::Fwsts(crate::of_hardware::update(
            crate::of_hardware::UpdateFlat {
                tag: b.b1,
                w0: b.w0,
            },
        )),
        1 => hostif::request::Request::Hicr,
        2 => hostif::request::Request::Word(b.w0, b.b1),
        3 => hostif::request::Request::Start(b.w0),
        _ => hostif::request::Request::Polling(crate::of_hardware::poll(
            crate::of_hardware::PollFlat {
                tag: b.b1,
                w0: b.w0,
                w1: b.w1,
            },
        )),
    }
}

#[tactic(auto, unfolding(crate::specs::Hostif::flat_response))]
pub fn of_response(s: hostif::response::Response) -> ResponseFlat
    ensures { result ≡ flat_response s }
{
    match s {
        hostif::response::Response::Head(x0) => ResponseFlat {
            tag: 0,
            b1: 0,
            w0: x0,
        },
        hostif::response::Response::Rest(x0, x1) => ResponseFlat {
            tag: 1,
            b1: x1,
            w0: x0,
        },
    }
}

#[tactic(auto, unfolding(crate::specs::Hostif::the_response))]
pub fn response(b: ResponseFlat) -> hostif::response::Response
    ensures { result ≡ the_response b }
{
    let tag = b.tag;
    match tag {
        0 => hostif::response::Response::Head(b.w0),
        _ => hostif::response::Response::Rest(b.w0, b.b1),
    }
}

#[tactic(auto, unfolding(crate::specs::Hostif::flat_command))]
pub fn of_command(s: hostif::command::Command) -> CommandFlat
    ensures { result ≡ flat_command s }
{
    match s {
        hostif::command::Command::Acquiring(x0) => {
            let q0 = crate::of_sync::of_acquire_bits(x0);
            CommandFlat {
                tag: 0,
                b1: q0.b0,
                b2: q0.b1,
                b3: q0.b2,
                b4: q0.b3,
                b5: q0.b4,
                b6: q0.b5,
                b7: q0.b6,
                b8: 0,
                b9: 0,
                b10: 0,
                b11: 0,
                w0: q0.w0,
                w1: q0.w1,
                w2: q0.w2,
            }
        },
        hostif::command::Command::Requesting(x0) => {
            let q0 = of_request(x0);
            CommandFlat {
                tag: 1,
                b1: q0.tag,
                b2: q0.b1,
                b3: 0,
                b4: 0,
                b5: 0,
                b6: 0,
                b7: 0,
                b8: 0,
                b9: 0,
                b10: 0,
                b11: 0,
                w0: q0.w0,
                w1: q0.w1,
                w2: 0,
            }
        },
        hostif::command::Command::Responding(x0) => {
            let q0 = of_response(x0);
            CommandFlat {
                tag: 2,
                b1: q0.tag,
                b2: q0.b1,
                b3: 0,
                b4: 0,
                b5: 0,
                b6: 0,
                b7: 0,
                b8: 0,
                b9: 0,
                b10: 0,
                b11: 0,
                w0: q0.w0,
                w1: 0,
                w2: 0,
            }
        },
        hostif::command::Command::Releasing(x0, x1) => {
            let q0 = crate::of_sync::of_release_bits(x0);
            let q1 = crate::of_hardware::of_byte(x1);
            CommandFlat {
                tag: 3,
                b1: q0.tag,
                b2: q0.b1,
                b3: q0.b2,
                b4: q0.b3,
                b5: q0.b4,
                b6: q0.b5,
                b7: q0.b6,
                b8: q1.tag,
                b9: q1.b1,
                b10: q1.b2,
                b11: q1.b3,
                w0: q0.w0,
                w1: q0.w1,
                w2: q1.w0,
            }
        },
    }
}

#[tactic(auto, unfolding(crate::specs::Hostif::the_command))]
pub fn command(b: CommandFlat) -> hostif::command::Command
    ensures { result ≡ the_command b }
{
    let tag = b.tag;
    match tag {
        0 => hostif::command::Command::Acquiring(crate::of_sync::acquire_bits(
            crate::of_sync::AcquireBitsFlat {
                b0: b.b1,
                b1: b.b2,
                b2: b.b3,
                b3: b.b4,
                b4: b.b5,
                b5: b.b6,
                b6: b.b7,
                w0: b.w0,
                w1: b.w1,
                w2: b.w2,
            },
        )),
        1 => hostif::command::Command::Requesting(request(RequestFlat {
            tag: b.b1,
            b1: b.b2,
            w0: b.w0,
            w1: b.w1,
        })),
        2 => hostif::command::Command::Responding(response(ResponseFlat {
            tag: b.b1,
            b1: b.b2,
            w0: b.w0,
        })),
        _ => hostif::command::Command::Releasing(
            crate::of_sync::release_bits(crate::of_sync::ReleaseBitsFlat {
                tag: b.b1,
                b1: b.b2,
                b2: b.b3,
                b3: b.b4,
                b4: b.b5,
                b5: b.b6,
                b6: b.b7,
                w0: b.w0,
                w1: b.w1,
            }),
            crate::of_hardware::byte(crate::of_hardware::ByteFlat {
                tag: b.b8,
                b1: b.b9,
                b2: b.b10,
                b3: b.b11,
                w0: b.w2,
            }),
        ),
    }
}

#[tactic(auto, unfolding(crate::specs::Hostif::flat_token))]
pub fn of_token(s: hostif::token::Token) -> TokenFlat
    ensures { result ≡ flat_token s }
{
    let p2 = s.command;
    let q2 = of_command(p2);
    TokenFlat {
        b0: q2.tag,
        b1: q2.b1,
        b2: q2.b2,
        b3: q2.b3,
        b4: q2.b4,
        b5: q2.b5,
        b6: q2.b6,
        b7: q2.b7,
        b8: q2.b8,
        b9: q2.b9,
        b10: q2.b10,
        b11: q2.b11,
        w0: q2.w0,
        w1: q2.w1,
        w2: q2.w2,
        w3: s.first,
        w4: s.second,
    }
}

#[tactic(auto, unfolding(crate::specs::Hostif::the_token))]
pub fn token(b: TokenFlat) -> hostif::token::Token
    ensures { result ≡ the_token b }
{
    let p2 = command(CommandFlat {
        tag: b.b0,
        b1: b.b1,
        b2: b.b2,
        b3: b.b3,
        b4: b.b4,
        b5: b.b5,
        b6: b.b6,
        b7: b.b7,
        b8: b.b8,
        b9: b.b9,
        b10: b.b10,
        b11: b.b11,
        w0: b.w0,
        w1: b.w1,
        w2: b.w2,
    });
    hostif::token::Token {
        first: b.w3,
        second: b.w4,
        command: p2,
    }
}

#[tactic(auto, unfolding(crate::specs::Hostif::flat_token_call))]
pub fn of_token_call(s: hostif::calls::TokenCall) -> crate::State
    ensures { result ≡ flat_token_call s }
{
    match s {
        Some((x0, x1, x2)) => {
            let q0 = crate::of_hardware::of_port(x0);
            let q2 = of_token(x2);
            crate::State {
                call: 7,
                tag: 0,
                b1: q0.b0,
                b2: q0.b1,
                b3: q2.b0,
                b4: q2.b1,
                b5: q2.b2,
                b6: q2.b3,
                b7: q2.b4,
                b8: q2.b5,
                b9: q2.b6,
                b10: q2.b7,
                b11: q2.b8,
                b12: q2.b9,
                b13: q2.b10,
                b14: q2.b11,
                b15: crate::bit(x1),
                b16: 0,
                b17: 0,
                b18: 0,
                b19: 0,
                b20: 0,
                b21: 0,
                b22: 0,
                b23: 0,
                h0: q0.h0,
                h1: 0,
                h2: 0,
                h3: 0,
                h4: 0,
                h5: 0,
                h6: 0,
                w0: q2.w0,
                w1: q2.w1,
                w2: q2.w2,
                w3: q2.w3,
                w4: q2.w4,
                w5: 0,
                w6: 0,
                w7: 0,
                w8: 0,
                z0: 0,
            }
        },
        None => crate::State {
            call: 7,
            tag: 1,
            b1: 0,
            b2: 0,
            b3: 0,
            b4: 0,
            b5: 0,
            b6: 0,
            b7: 0,
            b8: 0,
            b9: 0,
            b10: 0,
            b11: 0,
            b12: 0,
            b13: 0,
            b14: 0,
            b15: 0,
            b16: 0,
            b17: 0,
            b18: 0,
            b19: 0,
            b20: 0,
            b21: 0,
            b22: 0,
            b23: 0,
            h0: 0,
            h1: 0,
            h2: 0,
            h3: 0,
            h4: 0,
            h5: 0,
            h6: 0,
            w0: 0,
            w1: 0,
            w2: 0,
            w3: 0,
            w4: 0,
            w5: 0,
            w6: 0,
            w7: 0,
            w8: 0,
            z0: 0,
        },
    }
}

#[tactic(auto, unfolding(crate::specs::Hostif::the_token_call))]
pub fn token_call(b: crate::State) -> hostif::calls::TokenCall
    ensures { result ≡ the_token_call b }
{
    let tag = b.tag;
    match tag {
        0 => Some((
            crate::of_hardware::port(crate::of_hardware::PortFlat {
                b0: b.b1,
                b1: b.b2,
                h0: b.h0,
            }),
            crate::set(b.b15),
            token(TokenFlat {
                b0: b.b3,
                b1: b.b4,
                b2: b.b5,
                b3: b.b6,
                b4: b.b7,
                b5: b.b8,
                b6: b.b9,
                b7: b.b10,
                b8: b.b11,
                b9: b.b12,
                b10: b.b13,
                b11: b.b14,
                w0: b.w0,
                w1: b.w1,
                w2: b.w2,
                w3: b.w3,
                w4: b.w4,
            }),
        )),
        _ => None,
    }
}

#[tactic(auto, unfolding(crate::specs::Hostif::flat_command_call))]
pub fn of_command_call(s: hostif::calls::CommandCall) -> crate::State
    ensures { result ≡ flat_command_call s }
{
    match s {
        Some((x0, x1)) => {
            let q0 = crate::of_hardware::of_port(x0);
            let q1 = of_command(x1);
            crate::State {
                call: 8,
                tag: 0,
                b1: q0.b0,
                b2: q0.b1,
                b3: q1.tag,
                b4: q1.b1,
                b5: q1.b2,
                b6: q1.b3,
                b7: q1.b4,
                b8: q1.b5,
                b9: q1.b6,
                b10: q1.b7,
                b11: q1.b8,
                b12: q1.b9,
                b13: q1.b10,
                b14: q1.b11,
                b15: 0,
                b16: 0,
                b17: 0,
                b18: 0,
                b19: 0,
                b20: 0,
                b21: 0,
                b22: 0,
                b23: 0,
                h0: q0.h0,
                h1: 0,
                h2: 0,
                h3: 0,
                h4: 0,
                h5: 0,
                h6: 0,
                w0: q1.w0,
                w1: q1.w1,
                w2: q1.w2,
                w3: 0,
                w4: 0,
                w5: 0,
                w6: 0,
                w7: 0,
                w8: 0,
                z0: 0,
            }
        },
        None => crate::State {
            call: 8,
            tag: 1,
            b1: 0,
            b2: 0,
            b3: 0,
            b4: 0,
            b5: 0,
            b6: 0,
            b7: 0,
            b8: 0,
            b9: 0,
            b10: 0,
            b11: 0,
            b12: 0,
            b13: 0,
            b14: 0,
            b15: 0,
            b16: 0,
            b17: 0,
            b18: 0,
            b19: 0,
            b20: 0,
            b21: 0,
            b22: 0,
            b23: 0,
            h0: 0,
            h1: 0,
            h2: 0,
            h3: 0,
            h4: 0,
            h5: 0,
            h6: 0,
            w0: 0,
            w1: 0,
            w2: 0,
            w3: 0,
            w4: 0,
            w5: 0,
            w6: 0,
            w7: 0,
            w8: 0,
            z0: 0,
        },
    }
}

#[tactic(auto, unfolding(crate::specs::Hostif::the_command_call))]
pub fn command_call(b: crate::State) -> hostif::calls::CommandCall
    ensures { result ≡ the_command_call b }
{
    let tag = b.tag;
    match tag {
        0 => Some((
            crate::of_hardware::port(crate::of_hardware::PortFlat {
                b0: b.b1,
                b1: b.b2,
                h0: b.h0,
            }),
            command(CommandFlat {
                tag: b.b3,
                b1: b.b4,
                b2: b.b5,
                b3: b.b6,
                b4: b.b7,
                b5: b.b8,
                b6: b.b9,
                b7: b.b10,
                b8: b.b11,
                b9: b.b12,
                b10: b.b13,
                b11: b.b14,
                w0: b.w0,
                w1: b.w1,
                w2: b.w2,
            }),
        )),
        _ => None,
    }
}
