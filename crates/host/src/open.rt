// The openings. sequence: the clearing sequence after a failed attempt: 0 the default, 1 the original's pulses, 2 rounds; any other
// number is refused with 13, before every question.
ghost use Rattle.std.specs.Prelude.{◌≡◌};
ghost use Rattle.hardware.specs.Asked.{yes};
ghost use Rattle.hardware.specs.Prog.{erase};
ghost use Rattle.hardware.specs.Change.{change};
ghost use Rattle.i2c.specs.declared.once.Request.{Request};
ghost use Rattle.i2c.specs.I2c.{making, setup_bus};
ghost use Rattle.i2c.specs.Calls.{open_transfer};
ghost use Rattle.identify.specs.Calls.{open_identify, open_qsfp};
ghost use Rattle.softrate.specs.Calls.{open_rate};
ghost use Rattle.light.specs.Calls.{open_light};
ghost use Rattle.acquire.specs.Calls.{open_acquire, open_release};
ghost use Rattle.hostif.specs.Calls.{open_token};
ghost use Rattle.page.specs.declared.walk.Form.{Form};
ghost use Rattle.page.specs.Calls.{open_page, open_qsfp_page};
ghost use Rattle.host.specs.Shown.{Shows, over_transfer, ShownTransfer, over_setup, ShownSetup, over_identify, ShownIdentify, over_rate, ShownRate, over_light, ShownLight, over_acquire, ShownAcquire, over_release, ShownRelease, over_token, ShownToken, over_command, ShownCommand, over_script, ShownScript, over_page, ShownPage};
ghost use Rattle.host.specs.Tells.{TellsTransfer, TellsSetup, TellsIdentify, TellsRate, TellsLight, TellsAcquire, TellsRelease, TellsToken, TellsCommandOpen, TellsScriptOpen, TellsPageOpen};
ghost use Rattle.host.specs.Open.{named, OpenedBy};

use crate::Block;
use transfer::attempt::Sequence;

#[tactic(auto, unfolding(crate::specs::Open::named))]
fn by_number(sequence: u32) -> Option<Sequence>
    ensures { result ≡ named sequence }
{
    match sequence {
        0 => Some(i2c::standard()),
        1 => Some(Sequence::Pulses),
        2 => Some(Sequence::Rounds),
        _ => None,
    }
}

#[unsafe(no_mangle)]
#[tactic(auto, unfolding(crate::specs::Open::OpenedBy))]
pub extern "C" fn sulfryk_read_byte_open(
    family: u32,
    device: u16,
    lan: u32,
    address: u8,
    offset: u8,
    attempts: u32,
    lock: bool,
    sequence: u32,
) -> Block
    ensures { OpenedBy (named sequence) (λ q. Shows (TellsTransfer (open_transfer family device lan (Request.ReadByte address offset) attempts (making lock q))) ShownTransfer over_transfer) over_transfer result }
{
    let over = crate::shown::transfer_over();
    match by_number(sequence) {
        Some(q) => crate::shown::transfer(
            over,
            i2c::calls::read_byte_open_with(
                family, device, lan, address, offset, attempts, lock, q,
            ),
        ),
        None => crate::shown::refused(13, over),
    }
}

#[unsafe(no_mangle)]
#[tactic(auto, unfolding(crate::specs::Open::OpenedBy))]
pub extern "C" fn sulfryk_write_byte_open(
    family: u32,
    device: u16,
    lan: u32,
    address: u8,
    offset: u8,
    value: u8,
    lock: bool,
    sequence: u32,
) -> Block
    ensures { OpenedBy (named sequence) (λ q. Shows (TellsTransfer (open_transfer family device lan (Request.WriteByte address offset value) 0 (making lock q))) ShownTransfer over_transfer) over_transfer result }
{
    let over = crate::shown::transfer_over();
    match by_number(sequence) {
        Some(q) => crate::shown::transfer(
            over,
            i2c::calls::write_byte_open_with(family, device, lan, address, offset, value, lock, q),
        ),
        None => crate::shown::refused(13, over),
    }
}

#[unsafe(no_mangle)]
#[tactic(auto, unfolding(crate::specs::Open::OpenedBy))]
pub extern "C" fn sulfryk_read_combined_open(
    family: u32,
    device: u16,
    lan: u32,
    address: u8,
    reg: u16,
    lock: bool,
    sequence: u32,
) -> Block
    ensures { OpenedBy (named sequence) (λ q. Shows (TellsTransfer (open_transfer family device lan (Request.ReadCombined address reg) 0 (making lock q))) ShownTransfer over_transfer) over_transfer result }
{
    let over = crate::shown::transfer_over();
    match by_number(sequence) {
        Some(q) => crate::shown::transfer(
            over,
            i2c::calls::read_combined_open_with(family, device, lan, address, reg, lock, q),
        ),
        None => crate::shown::refused(13, over),
    }
}

#[unsafe(no_mangle)]
#[tactic(auto, unfolding(crate::specs::Open::OpenedBy))]
pub extern "C" fn sulfryk_write_combined_open(
    family: u32,
    device: u16,
    lan: u32,
    address: u8,
    reg: u16,
    value: u16,
    lock: bool,
    sequence: u32,
) -> Block
    ensures { OpenedBy (named sequence) (λ q. Shows (TellsTransfer (open_transfer family device lan (Request.WriteCombined address reg value) 0 (making lock q))) ShownTransfer over_transfer) over_transfer result }
{
    let over = crate::shown::transfer_over();
    match by_number(sequence) {
        Some(q) => crate::shown::transfer(
            over,
            i2c::calls::write_combined_open_with(family, device, lan, address, reg, value, lock, q),
        ),
        None => crate::shown::refused(13, over),
    }
}

#[unsafe(no_mangle)]
pub extern "C" fn sulfryk_qsfp_setup_open() -> Block
    ensures { Shows (TellsSetup (yes (erase (change setup_bus)))) ShownSetup over_setup result }
{
    crate::shown::setup(crate::shown::setup_over(), i2c::calls::qsfp_setup_open())
}

#[unsafe(no_mangle)]
#[tactic(auto, unfolding(crate::specs::Open::OpenedBy))]
pub extern "C" fn sulfryk_identify_open(family: u32, device: u16, lan: u32, sequence: u32) -> Block
    ensures { OpenedBy (named sequence) (λ q. Shows (TellsIdentify (open_identify q family device lan)) ShownIdentify over_identify) over_identify result }
{
    let over = crate::shown::identify_over();
    match by_number(sequence) {
        Some(q) => crate::shown::identify(
            over,
            identify::calls::identify_open_with(family, device, lan, q),
        ),
        None => crate::shown::refused(13, over),
    }
}

#[unsafe(no_mangle)]
#[tactic(auto, unfolding(crate::specs::Open::OpenedBy))]
pub extern "C" fn sulfryk_identify_qsfp_open(
    family: u32,
    device: u16,
    lan: u32,
    sequence: u32,
) -> Block
    ensures { OpenedBy (named sequence) (λ q. Shows (TellsIdentify (open_qsfp q family device lan)) ShownIdentify over_identify) over_identify result }
{
    let over = crate::shown::identify_over();
    match by_number(sequence) {
        Some(q) => crate::shown::identify(
            over,
            identify::calls::identify_qsfp_open_with(family, device, lan, q),
        ),
        None => crate::shown::refused(13, over),
    }
}

#[unsafe(no_mangle)]
#[tactic(auto, unfolding(crate::specs::Open::OpenedBy))]
pub extern "C" fn sulfryk_soft_rate_select_open(
    family: u32,
    device: u16,
    lan: u32,
    ten: bool,
    sequence: u32,
) -> Block
    ensures { OpenedBy (named sequence) (λ q. Shows (TellsRate (open_rate q family device lan ten)) ShownRate over_rate) over_rate result }
{
    let over = crate::shown::rate_over();
    match by_number(sequence) {
        Some(q) => crate::shown::rate(
            over,
            softrate::calls::soft_rate_select_open_with(family, device, lan, ten, q),
        ),
        None => crate::shown::refused(13, over),
    }
}

#[unsafe(no_mangle)]
#[tactic(auto, unfolding(crate::specs::Open::OpenedBy))]
pub extern "C" fn sulfryk_light_open(
    family: u32,
    device: u16,
    lan: u32,
    attempts: u32,
    sequence: u32,
) -> Block
    ensures { OpenedBy (named sequence) (λ q. Shows (TellsLight (open_light q family device lan attempts)) ShownLight over_light) over_light result }
{
    let over = crate::shown::light_over();
    match by_number(sequence) {
        Some(q) => crate::shown::light(
            over,
            light::calls::light_open_with(family, device, lan, attempts, q),
        ),
        None => crate::shown::refused(13, over),
    }
}

#[unsafe(no_mangle)]
pub extern "C" fn sulfryk_acquire_open(family: u32, device: u16, lan: u32, mask: u32) -> Block
    ensures { Shows (TellsAcquire (open_acquire family device lan mask)) ShownAcquire over_acquire result }
{
    crate::shown::acquire(
        crate::shown::acquire_over(),
        acquire::calls::acquire_open(family, device, lan, mask),
    )
}

#[unsafe(no_mangle)]
pub extern "C" fn sulfryk_release_open(family: u32, device: u16, lan: u32, mask: u32) -> Block
    ensures { Shows (TellsRelease (open_release family device lan mask)) ShownRelease over_release result }
{
    crate::shown::release(
        crate::shown::release_over(),
        acquire::calls::release_open(family, device, lan, mask),
    )
}

#[unsafe(no_mangle)]
pub extern "C" fn sulfryk_token_open(family: u32, device: u16, lan: u32, take: bool) -> Block
    ensures { Shows (TellsToken (open_token family device lan take)) ShownToken over_token result }
{
    crate::shown::token(
        crate::shown::token_over(),
        hostif::calls::token_open(family, device, lan, take),
    )
}

#[unsafe(no_mangle)]
pub extern "C" fn sulfryk_command_open(family: u32, device: u16, lan: u32, block: &[u32]) -> Block
    ensures { Shows (TellsCommandOpen family device lan block.now) ShownCommand over_command result }
{
    crate::shown::command(
        crate::shown::command_over(),
        hostif::calls::command_open(family, device, lan, block),
    )
}

#[unsafe(no_mangle)]
pub extern "C" fn sulfryk_script_open(family: u32, device: u16, lan: u32, script: &[u8]) -> Block
    ensures { Shows (TellsScriptOpen family device lan script.now) ShownScript over_script result }
{
    crate::shown::script(
        crate::shown::script_over(),
        transfer::calls::script_open(family, device, lan, script),
    )
}

#[unsafe(no_mangle)]
#[tactic(auto, unfolding(crate::specs::Open::OpenedBy))]
pub extern "C" fn sulfryk_page_open(
    family: u32,
    device: u16,
    lan: u32,
    attempts: u32,
    buffer: &[u8],
    sequence: u32,
) -> Block
    ensures { OpenedBy (named sequence) (λ q. Shows (TellsPageOpen (open_page q family device lan attempts buffer.now) q family device lan Form.Sff8472 attempts buffer.now) ShownPage over_page) over_page result }
{
    let over = crate::shown::page_over();
    match by_number(sequence) {
        Some(q) => crate::shown::page(
            over,
            page::calls::page_open_with(family, device, lan, attempts, buffer, q),
        ),
        None => crate::shown::refused(13, over),
    }
}

#[unsafe(no_mangle)]
#[tactic(auto, unfolding(crate::specs::Open::OpenedBy))]
pub extern "C" fn sulfryk_qsfp_page_open(
    family: u32,
    device: u16,
    lan: u32,
    attempts: u32,
    buffer: &[u8],
    sequence: u32,
) -> Block
    ensures { OpenedBy (named sequence) (λ q. Shows (TellsPageOpen (open_qsfp_page q family device lan attempts buffer.now) q family device lan Form.Sff8636 attempts buffer.now) ShownPage over_page) over_page result }
{
    let over = crate::shown::page_over();
    match by_number(sequence) {
        Some(q) => crate::shown::page(
            over,
            page::calls::qsfp_page_open_with(family, device, lan, attempts, buffer, q),
        ),
        None => crate::shown::refused(13, over),
    }
}
