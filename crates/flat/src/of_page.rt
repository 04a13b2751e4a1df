// States of `page` as numbers, and back. Written by `derive`.
ghost use Rattle.std.specs.Prelude.{◌≡◌};
ghost use Rattle.flat.specs.Page.{flat_form, the_form, flat_page, the_page, flat_page_call, the_page_call};

#[repr(C)]
#[derive(Clone, Copy)]
pub struct PageFlat {
    pub b0: u8,
    pub b1: u8,
    pub b2: u8,
    pub b3: u8,
    pub b4: u8,
    pub b5: u8,
    pub b6: u8,
    pub b7: u8,
    pub b8: u8,
    pub b9: u8,
    pub b10: u8,
    pub b11: u8,
    pub b12: u8,
    pub b13: u8,
    pub b14: u8,
    pub h0: u16,
    pub w0: u32,
    pub w1: u32,
    pub w2: u32,
    pub z0: usize,
}

#[tactic(auto, unfolding(crate::specs::Page::flat_form))]
pub fn of_form(s: page::walk::Form) -> u8
    ensures { result ≡ flat_form s }
{
    match s {
        page::walk::Form::Sff8472 => 0,
        page::walk::Form::Sff8636 => 1,
    }
}

#[tactic(auto, unfolding(crate::specs::Page::the_form))]
pub fn form(b: u8) -> page::walk::Form
    ensures { result ≡ the_form b }
{
    match b {
        0 => page::walk::Form::Sff8472,
        _ => page::walk::Form::Sff8636,
    }
}

#[tactic(auto, unfolding(crate::specs::Page::flat_page))]
pub fn of_page(s: page::walk::Page) -> PageFlat
    ensures { result ≡ flat_page s }
{
    let p1 = s.request;
    let q1 = crate::of_i2c::of_handshake(p1);
    PageFlat {
        b0: q1.tag,
        b1: q1.b1,
        b2: q1.b2,
        b3: q1.b3,
        b4: q1.b4,
        b5: q1.b5,
        b6: q1.b6,
        b7: q1.b7,
        b8: q1.b8,
        b9: q1.b9,
        b10: q1.b10,
        b11: q1.b11,
        b12: q1.b12,
        b13: q1.b13,
        b14: s.left,
        h0: q1.h0,
        w0: q1.w0,
        w1: q1.w1,
        w2: q1.w2,
        z0: q1.z0,
    }
}

#[tactic(auto, unfolding(crate::specs::Page::the_page))]
pub fn page(b: PageFlat) -> page::walk::Page
    ensures { result ≡ the_page b }
{
    let p1 = crate::of_i2c::handshake(crate::of_i2c::HandshakeFlat {
        tag: b.b0,
        b1: b.b1,
        b2: b.b2,
        b3: b.b3,
        b4: b.b4,
        b5: b.b5,
        b6: b.b6,
        b7: b.b7,
        b8: b.b8,
        b9: b.b9,
        b10: b.b10,
        b11: b.b11,
        b12: b.b12,
        b13: b.b13,
        h0: b.h0,
        w0: b.w0,
        w1: b.w1,
        w2: b.w2,
        z0: b.z0,
    });
    page::walk::Page {
        left: b.b14,
        request: p1,
    }
}

#[tactic(auto, unfolding(crate::specs::Page::flat_page_call))]
pub fn of_page_call(s: page::calls::PageCall) -> crate::State
    ensures { result ≡ flat_page_call s }
{
    match s {
        Some((x0, x1, x2, x3, x4, x5)) => {
            let q0 = crate::of_hardware::of_port(x0);
            let q1 = crate::of_transfer::of_sequence(x1);
            let q2 = of_form(x2);
            let q4 = crate::of_hardware::of_meter(x4);
            let q5 = of_page(x5);
            crate::State {
                call: 10,
                tag: 0,
                b1: q5.b0,
                b2: q5.b1,
                b3: q5.b2,
                b4: q5.b3,
                b5: q5.b4,
                b6: q5.b5,
                b7: q5.b6,
                b8: q5.b7,
                b9: q5.b8,
                b10: q5.b9,
                b11: q5.b10,
                b12: q5.b11,
                b13: q5.b12,
                b14: q5.b13,
                b15: q0.b0,
                b16: q0.b1,
                b17: q4.b0,
                b18: q5.b14,
                b19: q1,
                b20: q2,
                b21: x3,
                b22: 0,
                b23: 0,
                h0: q5.h0,
                h1: q0.h0,
                h2: 0,
                h3: 0,
                h4: 0,
                h5: 0,
                h6: 0,
                w0: q5.w0,
                w1: q5.w1,
                w2: q5.w2,
                w3: q4.w0,
                w4: 0,
                w5: 0,
                w6: 0,
                w7: 0,
                w8: 0,
                z0: q5.z0,
            }
        },
        None => crate::State {
            call: 10,
            tag: 1,
            b1: 0,
            b2: 0,
            b3: 0,
            b4: 0,
            b5: 0,
            b6: 0,
            b7: 0,
            b8: 0,
            b9: 0,
            b10: 0,
            b11: 0,
            b12: 0,
            b13: 0,
            b14: 0,
            b15: 0,
            b16: 0,
            b17: 0,
            b18: 0,
            b19: 0,
            b20: 0,
            b21: 0,
            b22: 0,
            b23: 0,
            h0: 0,
            h1: 0,
            h2: 0,
            h3: 0,
            h4: 0,
            h5: 0,
            h6: 0,
            w0: 0,
            w1: 0,
            w2: 0,
            w3: 0,
            w4: 0,
            w5: 0,
            w6: 0,
            w7: 0,
            w8: 0,
            z0: 0,
        },
    }
}

#[tactic(auto, unfolding(crate::specs::Page::the_page_call))]
pub fn page_call(b: crate::State) -> page::calls::PageCall
    ensures { result ≡ the_page_call b }
{
    let tag = b.tag;
    match tag {
        0 => Some((
            crate::of_hardware::port(crate::of_hardware::PortFlat {
                b0: b.b15,
                b1: b.b16,
                h0: b.h1,
            }),
            crate::of_transfer::sequence(b.b19),
            form(b.b20),
            b.b21,
            crate::of_hardware::meter(crate::of_hardware::MeterFlat {
                b0: b.b17,
                w0: b.w3,
            }),
            page(PageFlat {
                b0: b.b1,
                b1: b.b2,
                b2: b.b3,
                b3: b.b4,
                b4: b.b5,
                b5: b.b6,
                b6: b.b7,
                b7: b.b8,
                b8: b.b9,
                b9: b.b10,
                b10: b.b11,
                b11: b.b12,
                b12: b.b13,
                b13: b.b14,
                h0: b.h0,
                w0: b.w0,
                w1: b.w1,
                w2: b.w2,
                z0: b.z0,
                b14: b.b18,
            }),
        )),
        _ => None,
    }
}
