//! Sizes and alignments of shapes in bytes, and the room that is left for a shape (LangRef, "Data
//! Layout").

ghost use Rattle.std.specs.Prelude.{◌≡◌, ◌≤◌, ◌*◌};
ghost use Rattle.ir_parse_operands.specs.Extents.{wider, bytes, rounded, multiples, align_by, scalar_extent, placed, grown, padded, no_bytes, extent, room_for, whole, share, shared, between, behind, left_for, left, Fits, IsRoom};

/// The alignment of a shape, in bytes.
#[derive(Clone, Copy)]
pub enum Align {
    One,
    Two,
    Four,
    Eight,
}

/// The size of a shape in bytes, and its alignment.
#[derive(Clone, Copy)]
pub struct Extent {
    pub size: u64,
    pub align: Align,
}

/// How large a shape may be: for each alignment that it may have, how many sizes, which are the
/// multiples of the alignment from 0 on.
#[derive(Clone, Copy)]
pub struct Room {
    pub one: u64,
    pub two: u64,
    pub four: u64,
    pub eight: u64,
}

impl Align {
    /// The alignment of an integer of so many bits.
    pub fn of_width(width: u8) -> Align
        ensures { result ≡ align_by width }
    {
        if width <= 8 {
            Align::One
        } else if width <= 16 {
            Align::Two
        } else if width <= 32 {
            Align::Four
        } else {
            Align::Eight
        }
    }

    /// The greater of two alignments.
    fn wider(self, other: Align) -> Align
        ensures { result ≡ wider self other }
    {
        match self {
            Align::One => other,
            Align::Two => match other {
                Align::One => Align::Two,
                b => b,
            },
            Align::Four => match other {
                Align::Eight => Align::Eight,
                _ => Align::Four,
            },
            Align::Eight => Align::Eight,
        }
    }

    /// So many multiples, in bytes.
    fn bytes(self, n: u64) -> u64
        requires { n ≤ 4294967296 }
        ensures { result ≡ bytes self n }
    {
        match self {
            Align::One => n,
            Align::Two => 2 * n,
            Align::Four => 4 * n,
            Align::Eight => 8 * n,
        }
    }

    /// The least multiple from a place on.
    fn rounded(self, place: u64) -> u64
        requires { place ≤ 4294967296 }
        ensures { result ≡ rounded self place }
    {
        match self {
            Align::One => place,
            Align::Two => (place + 1) / 2 * 2,
            Align::Four => (place + 3) / 4 * 4,
            Align::Eight => (place + 7) / 8 * 8,
        }
    }

    /// How many multiples are no greater, 0 among them.
    fn multiples(self, n: u64) -> u64
        requires { n ≤ 4294967296 }
        ensures { result ≡ multiples self n }
    {
        match self {
            Align::One => n + 1,
            Align::Two => n / 2 + 1,
            Align::Four => n / 4 + 1,
            Align::Eight => n / 8 + 1,
        }
    }

    /// How many sizes of this alignment each of so many elements may have, where all together may have
    /// so many.
    fn share(self, count: u64, room: u64) -> u64
        ensures { result ≡ share count room self }
    {
        if room == 0 {
            0
        } else if count == 0 {
            self.multiples(2147483648)
        } else {
            (room - 1) / count + 1
        }
    }

    /// How many sizes of this alignment fit between a place and an end.
    fn between(self, place: u64, end: u64) -> u64
        requires { end ≤ 4294967296 }
        ensures { result ≡ between self place end }
    {
        if place <= end {
            self.multiples(end - place)
        } else {
            0
        }
    }

    /// How many sizes of this alignment fit behind a place, up to the greatest of so many multiples of
    /// another alignment.
    fn behind(self, room: u64, widest: Align, place: u64) -> u64
        requires { bytes widest room ≤ 4294967296 }
        ensures { result ≡ behind room widest place self }
    {
        if room == 0 {
            0
        } else {
            self.between(place, widest.bytes(room - 1))
        }
    }

    /// The alignment of a member of a structure, which may stand anywhere in a packed one.
    fn placed(self, packed: bool) -> Align
        ensures { result ≡ placed packed self }
    {
        if packed { Align::One } else { self }
    }
}

impl Extent {
    /// What takes no bytes.
    pub fn no_bytes() -> Extent
        ensures { result ≡ no_bytes }
    {
        Extent {
            size: 0,
            align: Align::One,
        }
    }

    /// A scalar of this alignment.
    pub fn scalar(align: Align) -> Extent
        ensures { result ≡ scalar_extent align }
    {
        Extent {
            size: align.bytes(1),
            align,
        }
    }

    /// So many elements of this extent.
    pub fn repeated(self, count: u64) -> Extent
        requires { count * self.size ≤ 2147483648 }
        ensures { result ≡ extent (count * self.size) self.align }
    {
        Extent {
            size: count * self.size,
            align: self.align,
        }
    }

    /// Members of a structure, and one more behind them.
    pub fn grown(self, packed: bool, member: Extent) -> Extent
        requires size { self.size ≤ 2147483648 }
        requires more { member.size ≤ 2147483648 }
        ensures { result ≡ grown packed self member }
    {
        let align = member.align.placed(packed);
        Extent {
            size: align.rounded(self.size) + member.size,
            align: self.align.wider(align),
        }
    }

    /// Members of a structure, and the padding behind them.
    pub fn padded(self) -> Extent
        requires { self.size ≤ 2147483648 }
        ensures { result ≡ padded self }
    {
        Extent {
            size: self.align.rounded(self.size),
            align: self.align,
        }
    }
}

impl Room {
    /// Room of 2^31 bytes.
    pub fn whole() -> Room
        ensures exact { result ≡ whole }
        ensures room { IsRoom result }
    {
        Room {
            one: 2147483649,
            two: 1073741825,
            four: 536870913,
            eight: 268435457,
        }
    }

    /// Room for shapes of this alignment.
    pub fn room_for(self, align: Align) -> u64
        requires { IsRoom self }
        ensures exact { result ≡ room_for self align }
        ensures most { result ≤ 2147483649 }
    {
        match align {
            Align::One => self.one,
            Align::Two => self.two,
            Align::Four => self.four,
            Align::Eight => self.eight,
        }
    }

    /// Room for each of so many elements.
    #[tactic(auto, using(crate::proofs::ExtentLaws::shared_room))]
    pub fn shared(self, count: u64) -> Room
        requires { IsRoom self }
        ensures exact { result ≡ shared count self }
        ensures room { IsRoom result }
    {
        Room {
            one: Align::One.share(count, self.one),
            two: Align::Two.share(count, self.two),
            four: Align::Four.share(count, self.four),
            eight: Align::Eight.share(count, self.eight),
        }
    }

    #[tactic(auto, using(crate::proofs::ExtentLaws::most_for))]
    fn left_for(self, packed: bool, members: Extent, align: Align) -> u64
        requires room { IsRoom self }
        requires size { members.size ≤ 2147483648 }
        ensures { result ≡ left_for packed self members align }
    {
        let placed = align.placed(packed);
        let widest = members.align.wider(placed);
        align.behind(self.room_for(widest), widest, placed.rounded(members.size))
    }

    /// Room for a member of a structure behind others.
    #[tactic(auto, using(crate::proofs::ExtentLaws::fits_most))]
    pub fn left(self, packed: bool, members: Extent) -> Room
        requires room { IsRoom self }
        requires fits { Fits self members }
        ensures exact { result ≡ left packed self members }
        ensures room { IsRoom result }
    {
        Room {
            one: self.left_for(packed, members, Align::One),
            two: self.left_for(packed, members, Align::Two),
            four: self.left_for(packed, members, Align::Four),
            eight: self.left_for(packed, members, Align::Eight),
        }
    }
}
