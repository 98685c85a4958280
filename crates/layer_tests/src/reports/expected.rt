//! The steps that a board is given of the captures in `channel`, read off their text.

use mdp_lanes::Row;
use mdp_quotes::Total;
use mdp_reports::Posting;

const FIRST: [(u16, Row); 1] = [(
    0,
    Row::Top {
        packet: 1,
        message: 1,
        bid: Some(Total {
            price: 100,
            size: 5,
        }),
        offer: None,
    },
)];

const SECOND: [(u16, Row); 1] = [(
    0,
    Row::Top {
        packet: 2,
        message: 1,
        bid: Some(Total {
            price: 101,
            size: 2,
        }),
        offer: None,
    },
)];

const THIRD: [(u16, Row); 1] = [(
    0,
    Row::Top {
        packet: 3,
        message: 1,
        bid: Some(Total {
            price: 101,
            size: 2,
        }),
        offer: Some(Total {
            price: 103,
            size: 4,
        }),
    },
)];

const FOURTH: [(u16, Row); 2] = [
    (
        0,
        Row::Top {
            packet: 4,
            message: 1,
            bid: Some(Total {
                price: 101,
                size: 9,
            }),
            offer: Some(Total {
                price: 103,
                size: 4,
            }),
        },
    ),
    (
        1,
        Row::Top {
            packet: 4,
            message: 1,
            bid: None,
            offer: Some(Total { price: 90, size: 3 }),
        },
    ),
];

const FIFTH: [(u16, Row); 1] = [(
    0,
    Row::Top {
        packet: 5,
        message: 1,
        bid: Some(Total {
            price: 101,
            size: 9,
        }),
        offer: Some(Total {
            price: 103,
            size: 4,
        }),
    },
)];

pub const PLAIN_STEPS: [Posting<'static>; 5] = [
    Posting::Event(&FIRST),
    Posting::Event(&SECOND),
    Posting::Event(&THIRD),
    Posting::Event(&FOURTH),
    Posting::Event(&FIFTH),
];

const RECOVERED_FOURTH: [(u16, Row); 2] = [
    (
        0,
        Row::Top {
            packet: 4,
            message: 1,
            bid: Some(Total {
                price: 101,
                size: 9,
            }),
            offer: Some(Total {
                price: 103,
                size: 4,
            }),
        },
    ),
    (
        2,
        Row::Top {
            packet: 4,
            message: 1,
            bid: None,
            offer: None,
        },
    ),
];

const RECOVERED_FIFTH: [(u16, Row); 2] = [
    (
        0,
        Row::Top {
            packet: 5,
            message: 1,
            bid: Some(Total {
                price: 101,
                size: 9,
            }),
            offer: Some(Total {
                price: 103,
                size: 4,
            }),
        },
    ),
    (
        1,
        Row::Top {
            packet: 5,
            message: 1,
            bid: None,
            offer: Some(Total { price: 90, size: 3 }),
        },
    ),
];

pub const RECOVERED_STEPS: [Posting<'static>; 4] = [
    Posting::Jump,
    Posting::Event(&THIRD),
    Posting::Event(&RECOVERED_FOURTH),
    Posting::Event(&RECOVERED_FIFTH),
];

const FAULT: [(u16, Row); 1] = [(
    0,
    Row::Fault {
        packet: 2,
        message: 1,
    },
)];

const FAULT_AND_FAR: [(u16, Row); 2] = [
    (
        0,
        Row::Fault {
            packet: 3,
            message: 1,
        },
    ),
    (
        1,
        Row::Top {
            packet: 3,
            message: 1,
            bid: None,
            offer: Some(Total { price: 90, size: 3 }),
        },
    ),
];

pub const FAULTY_STEPS: [Posting<'static>; 3] = [
    Posting::Event(&[]),
    Posting::Event(&FAULT),
    Posting::Event(&FAULT_AND_FAR),
];
