//! The lines of a thread.

ghost use Rattle.std.specs.Prelude.{◌≡◌, ◌+◌, ◌≤◌};
ghost use Rattle.thread_regs.specs.Soundness.{IsWithinWidths};
ghost use Rattle.report_text.specs.ThreadText.{thread_lines, thread_line, nia_line, cr_line, lr_line, gpr_line, srr_line, dar_line, hdar_line, heir_line, dec_line, lpcr_line, amr_line, sprg_line};

use line_text::{Line, Lines};
use thread_regs::Thread;

fn thread_line(number: usize) -> Line
    ensures { result ≡ thread_line number }
{
    let mut line = Line::new();
    line.push_bytes(b"thread ");
    line.push_number(number as u64);
    line.push(b'\n');
    line
}

fn nia_line(thread: &Thread) -> Line
    ensures { result ≡ nia_line thread.now }
{
    let mut line = Line::new();
    line.push_bytes(b"nia ");
    line.push_hex(16, thread.nia);
    line.push_bytes(b" msr ");
    line.push_hex(16, thread.msr.0);
    line.push(b'\n');
    line
}

/// The four general purpose registers from `first` on.
fn gpr_line(thread: &Thread, first: u8) -> Line
    requires { first ≤ 28 }
    ensures { result ≡ gpr_line thread.now first }
{
    let mut line = Line::new();
    line.push(b'r');
    line.push(b'0' + first / 10);
    line.push(b'0' + first % 10);
    line.push(b' ');
    line.push_hex(16, thread.gpr(first));
    line.push(b' ');
    line.push_hex(16, thread.gpr(first + 1));
    line.push(b' ');
    line.push_hex(16, thread.gpr(first + 2));
    line.push(b' ');
    line.push_hex(16, thread.gpr(first + 3));
    line.push(b'\n');
    line
}

fn cr_line(thread: &Thread) -> Line
    ensures { result ≡ cr_line thread.now }
{
    let mut line = Line::new();
    line.push_bytes(b"cr ");
    line.push_hex(8, u64::from(thread.cr));
    line.push_bytes(b" xer ");
    line.push_hex(16, thread.xer.register());
    line.push(b'\n');
    line
}

fn lr_line(thread: &Thread) -> Line
    ensures { result ≡ lr_line thread.now }
{
    let mut line = Line::new();
    line.push_bytes(b"lr ");
    line.push_hex(16, thread.lr);
    line.push_bytes(b" ctr ");
    line.push_hex(16, thread.ctr);
    line.push_bytes(b" tar ");
    line.push_hex(16, thread.tar);
    line.push(b'\n');
    line
}

fn srr_line(thread: &Thread) -> Line
    ensures { result ≡ srr_line thread.now }
{
    let mut line = Line::new();
    line.push_bytes(b"srr ");
    line.push_hex(16, thread.srr0);
    line.push_bytes(b" ");
    line.push_hex(16, thread.srr1);
    line.push_bytes(b" hsrr ");
    line.push_hex(16, thread.hsrr0);
    line.push_bytes(b" ");
    line.push_hex(16, thread.hsrr1);
    line.push(b'\n');
    line
}

fn dar_line(thread: &Thread) -> Line
    ensures { result ≡ dar_line thread.now }
{
    let mut line = Line::new();
    line.push_bytes(b"dar ");
    line.push_hex(16, thread.dar);
    line.push_bytes(b" dsisr ");
    line.push_hex(8, u64::from(thread.dsisr));
    line.push(b'\n');
    line
}

fn hdar_line(thread: &Thread) -> Line
    ensures { result ≡ hdar_line thread.now }
{
    let mut line = Line::new();
    line.push_bytes(b"hdar ");
    line.push_hex(16, thread.hdar);
    line.push_bytes(b" hdsisr ");
    line.push_hex(8, u64::from(thread.hdsisr));
    line.push_bytes(b" asdr ");
    line.push_hex(16, thread.asdr);
    line.push(b'\n');
    line
}

fn heir_line(thread: &Thread) -> Line
    requires { IsWithinWidths thread.now }
    ensures { result ≡ heir_line thread.now }
{
    let mut line = Line::new();
    line.push_bytes(b"heir ");
    line.push_hex(8, u64::from(thread.heir));
    line.push_bytes(b" lpidr ");
    line.push_hex(3, u64::from(thread.lpidr));
    line.push_bytes(b" pidr ");
    line.push_hex(5, u64::from(thread.pidr));
    line.push(b'\n');
    line
}

fn dec_line(thread: &Thread) -> Line
    ensures { result ≡ dec_line thread.now }
{
    let mut line = Line::new();
    line.push_bytes(b"dec ");
    line.push_hex(8, u64::from(thread.dec));
    line.push_bytes(b" hdec ");
    line.push_hex(8, u64::from(thread.hdec));
    line.push(b'\n');
    line
}

fn lpcr_line(thread: &Thread) -> Line
    ensures { result ≡ lpcr_line thread.now }
{
    let mut line = Line::new();
    line.push_bytes(b"lpcr ");
    line.push_hex(16, thread.lpcr);
    line.push_bytes(b" ptcr ");
    line.push_hex(16, thread.ptcr);
    line.push(b'\n');
    line
}

fn amr_line(thread: &Thread) -> Line
    ensures { result ≡ amr_line thread.now }
{
    let mut line = Line::new();
    line.push_bytes(b"amr ");
    line.push_hex(16, thread.amr);
    line.push_bytes(b" iamr ");
    line.push_hex(16, thread.iamr);
    line.push(b'\n');
    line
}

fn sprg_line(thread: &Thread) -> Line
    ensures { result ≡ sprg_line thread.now }
{
    let mut line = Line::new();
    line.push_bytes(b"sprg ");
    line.push_hex(16, thread.sprg0);
    line.push_bytes(b" ");
    line.push_hex(16, thread.sprg1);
    line.push_bytes(b" ");
    line.push_hex(16, thread.sprg2);
    line.push_bytes(b" ");
    line.push_hex(16, thread.sprg3);
    line.push_bytes(b" hsprg ");
    line.push_hex(16, thread.hsprg0);
    line.push_bytes(b" ");
    line.push_hex(16, thread.hsprg1);
    line.push(b'\n');
    line
}

/// The twenty lines of a thread.
#[derive(Drop)]
pub(crate) struct ThreadLines<'a> {
    /// The thread's number.
    pub(crate) number: usize,
    /// Its registers.
    pub(crate) thread: &'a Thread,
    pub(crate) ghost widths: { IsWithinWidths thread.now },
}

impl Lines for ThreadLines<'_> {
    ghost lines = { λ t. thread_lines t.number t.thread.now };

    #[tactic(auto, unfolding(crate::specs::ThreadText::thread_lines))]
    fn count(&self) -> u32 {
        20
    }

    #[tactic(auto, unfolding(crate::specs::ThreadText::thread_lines))]
    fn line(&self, k: u32, line: &mut Line) {
        let thread = self.thread;
        *line = match k {
            0 => thread_line(self.number),
            1 => nia_line(thread),
            2 => cr_line(thread),
            3 => lr_line(thread),
            4 => gpr_line(thread, 0),
            5 => gpr_line(thread, 4),
            6 => gpr_line(thread, 8),
            7 => gpr_line(thread, 12),
            8 => gpr_line(thread, 16),
            9 => gpr_line(thread, 20),
            10 => gpr_line(thread, 24),
            11 => gpr_line(thread, 28),
            12 => srr_line(thread),
            13 => dar_line(thread),
            14 => hdar_line(thread),
            15 => heir_line(thread),
            16 => dec_line(thread),
            17 => lpcr_line(thread),
            18 => amr_line(thread),
            _ => sprg_line(thread),
        };
    }
}
