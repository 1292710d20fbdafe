// What the program says of what it did.
use journal::record::Touched;
use std::fmt;

// How a line was recorded.
#[derive(Drop)]
pub struct Statement<'a> {
    pub values: usize,
    pub quoted: &'a [usize],
    pub put: usize,
    pub touched: Touched,
    pub held: usize,
    pub left: u64,
    pub blocks: usize,
    // The last four bytes of the last block that was touched: its count and its check.
    pub seal: [u8; 4],
}

impl fmt::Display for Statement<'_> {
    fn fmt<W: fmt::Write>(&self, f: &mut fmt::Formatter<W>) -> fmt::Result {
        let Touched { from, to } = self.touched;
        let touched = to.saturating_sub(from);
        let [a, b, c, d] = self.seal;
        write!(f, "values: {}, quoted: {:?}\n", self.values, self.quoted)?;
        write!(f, "put: {} bytes, blocks touched: {touched}\n", self.put)?;
        write!(
            f,
            "record: {} bytes held, {} left, {} blocks\n",
            self.held, self.left, self.blocks
        )?;
        write!(
            f,
            "block {to}: count {a:02x} {b:02x}, check {c:02x} {d:02x}"
        )
    }
}
