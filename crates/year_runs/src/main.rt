// The year printer's answers to inputs at the edges, one after the other, over the proved library.
#![tactic(auto)]

use std::io;

fn run(rt: &impl Print, input: &[u8]) -> io::Result<()> {
    let mut out = [0u8; 2048];
    let n = year_text::writer::answer(input, &mut out);
    rt.write_all(&out[..n])
}

// 400 digits: no year, however long the line is.
fn long_line(rt: &impl Print) -> io::Result<()> {
    let input = [b'9'; 400];
    run(rt, &input)
}

// 400 zeros and a year.
fn many_zeros(rt: &impl Print) -> io::Result<()> {
    let mut input = [b'0'; 404];
    input[400..].copy_from_slice(b"2007");
    run(rt, &input)
}

fn main(rt: HostRuntime) -> io::Result<()> {
    run(&rt, b"293997\n")?;
    run(&rt, b"1011600\n")?;
    run(&rt, b"0\n")?;
    run(&rt, b"1011601\n")?;
    run(&rt, b"\n")?;
    run(&rt, b"")?;
    run(&rt, b"12a\n")?;
    run(&rt, b"00000000000000000000293997\n")?;
    long_line(&rt)?;
    many_zeros(&rt)?;
    // no newline; two lines; a carriage return, a sign, a space and a NUL are bytes that are no digits
    run(&rt, b"3")?;
    run(&rt, b"3\n4\n")?;
    run(&rt, b"3\r\n")?;
    run(&rt, b"+3\n")?;
    run(&rt, b"-3\n")?;
    run(&rt, b" 3\n")?;
    run(&rt, b"3 \n")?;
    run(&rt, b"3\0\n")?;
    run(&rt, b"18446744073709551617\n")
}
