// The sign of ranges, and of the number that they are compared with: 0 unsigned, any other signed ("The class table").
pub const UNSIGNED: u8 = 0;
