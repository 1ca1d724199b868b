/// The most tasks: each may have a name and 1,024 messages of one voucher, and all of these are counted in a `u32`.
pub const MOST_DESKS: usize = 4190000;
/// The most that a name and a user reference can be, and the most vouchers.
pub const MOST: u32 = 4294967294;
