//! Points, and the trees that they make, worked out by hand.

/// An entry by its corners, and where it leads: to the row of that key with that number, or to a page.
#[derive(Clone, Copy)]
pub(crate) enum Spot {
    Row([i32; 2], i64, u64),
    Child([i32; 4], u32),
}

/// A page of a tree.
#[derive(Clone, Copy)]
pub(crate) struct Leaf {
    pub page: u32,
    pub level: u8,
    pub ssn: u64,
    pub next: u32,
    pub entries: &'static [Spot],
}

/// The entry of a page for one of its children, by its corners before and after.
#[derive(Clone, Copy)]
pub(crate) struct Grown {
    pub parent: u32,
    pub child: u32,
    pub old: [i32; 4],
    pub new: [i32; 4],
}

/// A page that was divided, and its new page, by the corners of both.
#[derive(Clone, Copy)]
pub(crate) struct Part {
    pub old: u32,
    pub new: u32,
    pub old_box: [i32; 4],
    pub new_box: [i32; 4],
}

/// The page that takes what a raised root held, and the corners round all of it.
#[derive(Clone, Copy)]
pub(crate) struct Lifted {
    pub page: u32,
    pub round: [i32; 4],
}

/// What is told of an insert. Where no root is raised, `raised` is empty.
#[derive(Clone, Copy)]
pub(crate) struct Told {
    pub number: u64,
    pub growths: &'static [Grown],
    pub raised: &'static [Lifted],
    pub divisions: &'static [Part],
}

/// These points, put in with the keys 1, 2, 3 and so on: the tree that they make, whose counter is its root's
/// sequence number, and what is told of the last. Where `taken` is true, a page is taken before the tree is made, and one before
/// the fifth point.
#[derive(Clone, Copy)]
pub(crate) struct Stage {
    pub taken: bool,
    pub root: u32,
    pub points: &'static [[i32; 2]],
    pub tree: &'static [Leaf],
    pub told: Told,
}

/// The stages: the third one has the highest tree.
pub(crate) static STAGES: [Stage; 7] = [
    // A root that is a leaf is raised, and what it held is divided.
    Stage {
        taken: false,
        root: 16,
        points: &[[0, 0], [10, 0], [0, 10], [10, 10], [5, 5]],
        tree: &[
            Leaf {
                page: 16,
                level: 1,
                ssn: 1,
                next: 0,
                entries: &[
                    Spot::Child([0, 0, 10, 5], 17),
                    Spot::Child([0, 10, 10, 10], 18),
                ],
            },
            Leaf {
                page: 17,
                level: 0,
                ssn: 1,
                next: 18,
                entries: &[
                    Spot::Row([0, 0], 1, 0),
                    Spot::Row([10, 0], 2, 1),
                    Spot::Row([5, 5], 5, 4),
                ],
            },
            Leaf {
                page: 18,
                level: 0,
                ssn: 0,
                next: 0,
                entries: &[Spot::Row([0, 10], 3, 2), Spot::Row([10, 10], 4, 3)],
            },
        ],
        told: Told {
            number: 4,
            growths: &[],
            raised: &[Lifted {
                page: 17,
                round: [0, 0, 10, 10],
            }],
            divisions: &[Part {
                old: 17,
                new: 18,
                old_box: [0, 0, 10, 5],
                new_box: [0, 10, 10, 10],
            }],
        },
    },
    // The left leaf is divided.
    Stage {
        taken: false,
        root: 16,
        points: &[[0, 0], [10, 0], [0, 10], [10, 10], [5, 5], [9, 1], [9, 2]],
        tree: &[
            Leaf {
                page: 16,
                level: 1,
                ssn: 2,
                next: 0,
                entries: &[
                    Spot::Child([0, 0, 10, 0], 17),
                    Spot::Child([0, 10, 10, 10], 18),
                    Spot::Child([5, 1, 9, 5], 19),
                ],
            },
            Leaf {
                page: 17,
                level: 0,
                ssn: 2,
                next: 19,
                entries: &[Spot::Row([0, 0], 1, 0), Spot::Row([10, 0], 2, 1)],
            },
            Leaf {
                page: 18,
                level: 0,
                ssn: 0,
                next: 0,
                entries: &[Spot::Row([0, 10], 3, 2), Spot::Row([10, 10], 4, 3)],
            },
            Leaf {
                page: 19,
                level: 0,
                ssn: 1,
                next: 18,
                entries: &[
                    Spot::Row([5, 5], 5, 4),
                    Spot::Row([9, 1], 6, 5),
                    Spot::Row([9, 2], 7, 6),
                ],
            },
        ],
        told: Told {
            number: 6,
            growths: &[Grown {
                parent: 16,
                child: 17,
                old: [0, 0, 10, 5],
                new: [0, 0, 10, 5],
            }],
            raised: &[],
            divisions: &[Part {
                old: 17,
                new: 19,
                old_box: [0, 0, 10, 0],
                new_box: [5, 1, 9, 5],
            }],
        },
    },
    // The last point divides a leaf, and so the root, which is raised before.
    Stage {
        taken: false,
        root: 16,
        points: &[
            [0, 0],
            [10, 0],
            [0, 10],
            [10, 10],
            [5, 5],
            [9, 1],
            [9, 2],
            [8, 0],
            [7, 0],
            [9, 0],
            [1, 10],
            [2, 10],
            [3, 10],
        ],
        tree: &[
            Leaf {
                page: 16,
                level: 2,
                ssn: 5,
                next: 0,
                entries: &[
                    Spot::Child([0, 0, 10, 5], 22),
                    Spot::Child([0, 10, 10, 10], 23),
                ],
            },
            Leaf {
                page: 22,
                level: 1,
                ssn: 5,
                next: 23,
                entries: &[
                    Spot::Child([0, 0, 9, 0], 17),
                    Spot::Child([5, 1, 9, 5], 19),
                    Spot::Child([7, 0, 10, 0], 20),
                ],
            },
            Leaf {
                page: 23,
                level: 1,
                ssn: 4,
                next: 0,
                entries: &[
                    Spot::Child([0, 10, 3, 10], 18),
                    Spot::Child([2, 10, 10, 10], 21),
                ],
            },
            Leaf {
                page: 17,
                level: 0,
                ssn: 3,
                next: 20,
                entries: &[
                    Spot::Row([0, 0], 1, 0),
                    Spot::Row([8, 0], 8, 7),
                    Spot::Row([9, 0], 10, 9),
                ],
            },
            Leaf {
                page: 20,
                level: 0,
                ssn: 2,
                next: 19,
                entries: &[Spot::Row([10, 0], 2, 1), Spot::Row([7, 0], 9, 8)],
            },
            Leaf {
                page: 19,
                level: 0,
                ssn: 1,
                next: 18,
                entries: &[
                    Spot::Row([5, 5], 5, 4),
                    Spot::Row([9, 1], 6, 5),
                    Spot::Row([9, 2], 7, 6),
                ],
            },
            Leaf {
                page: 18,
                level: 0,
                ssn: 4,
                next: 21,
                entries: &[
                    Spot::Row([0, 10], 3, 2),
                    Spot::Row([1, 10], 11, 10),
                    Spot::Row([3, 10], 13, 12),
                ],
            },
            Leaf {
                page: 21,
                level: 0,
                ssn: 0,
                next: 0,
                entries: &[Spot::Row([10, 10], 4, 3), Spot::Row([2, 10], 12, 11)],
            },
        ],
        told: Told {
            number: 12,
            growths: &[Grown {
                parent: 16,
                child: 18,
                old: [0, 10, 10, 10],
                new: [0, 10, 10, 10],
            }],
            raised: &[Lifted {
                page: 22,
                round: [0, 0, 10, 10],
            }],
            divisions: &[
                Part {
                    old: 18,
                    new: 21,
                    old_box: [0, 10, 3, 10],
                    new_box: [2, 10, 10, 10],
                },
                Part {
                    old: 22,
                    new: 23,
                    old_box: [0, 0, 10, 5],
                    new_box: [0, 10, 10, 10],
                },
            ],
        },
    },
    // The first of these trees on other pages.
    Stage {
        taken: true,
        root: 17,
        points: &[[0, 0], [10, 0], [0, 10], [10, 10], [5, 5]],
        tree: &[
            Leaf {
                page: 17,
                level: 1,
                ssn: 1,
                next: 0,
                entries: &[
                    Spot::Child([0, 0, 10, 5], 19),
                    Spot::Child([0, 10, 10, 10], 20),
                ],
            },
            Leaf {
                page: 19,
                level: 0,
                ssn: 1,
                next: 20,
                entries: &[
                    Spot::Row([0, 0], 1, 0),
                    Spot::Row([10, 0], 2, 1),
                    Spot::Row([5, 5], 5, 4),
                ],
            },
            Leaf {
                page: 20,
                level: 0,
                ssn: 0,
                next: 0,
                entries: &[Spot::Row([0, 10], 3, 2), Spot::Row([10, 10], 4, 3)],
            },
        ],
        told: Told {
            number: 4,
            growths: &[],
            raised: &[Lifted {
                page: 19,
                round: [0, 0, 10, 10],
            }],
            divisions: &[Part {
                old: 19,
                new: 20,
                old_box: [0, 0, 10, 5],
                new_box: [0, 10, 10, 10],
            }],
        },
    },
    // The second on other pages.
    Stage {
        taken: true,
        root: 17,
        points: &[[0, 0], [10, 0], [0, 10], [10, 10], [5, 5], [9, 1], [9, 2]],
        tree: &[
            Leaf {
                page: 17,
                level: 1,
                ssn: 2,
                next: 0,
                entries: &[
                    Spot::Child([0, 0, 10, 0], 19),
                    Spot::Child([0, 10, 10, 10], 20),
                    Spot::Child([5, 1, 9, 5], 21),
                ],
            },
            Leaf {
                page: 19,
                level: 0,
                ssn: 2,
                next: 21,
                entries: &[Spot::Row([0, 0], 1, 0), Spot::Row([10, 0], 2, 1)],
            },
            Leaf {
                page: 20,
                level: 0,
                ssn: 0,
                next: 0,
                entries: &[Spot::Row([0, 10], 3, 2), Spot::Row([10, 10], 4, 3)],
            },
            Leaf {
                page: 21,
                level: 0,
                ssn: 1,
                next: 20,
                entries: &[
                    Spot::Row([5, 5], 5, 4),
                    Spot::Row([9, 1], 6, 5),
                    Spot::Row([9, 2], 7, 6),
                ],
            },
        ],
        told: Told {
            number: 6,
            growths: &[Grown {
                parent: 17,
                child: 19,
                old: [0, 0, 10, 5],
                new: [0, 0, 10, 5],
            }],
            raised: &[],
            divisions: &[Part {
                old: 19,
                new: 21,
                old_box: [0, 0, 10, 0],
                new_box: [5, 1, 9, 5],
            }],
        },
    },
    // A raised root whose parts are far from each other.
    Stage {
        taken: false,
        root: 16,
        points: &[[0, 0], [1, 1], [10, 10], [11, 11], [2, 2]],
        tree: &[
            Leaf {
                page: 16,
                level: 1,
                ssn: 1,
                next: 0,
                entries: &[
                    Spot::Child([0, 0, 2, 2], 17),
                    Spot::Child([10, 10, 11, 11], 18),
                ],
            },
            Leaf {
                page: 17,
                level: 0,
                ssn: 1,
                next: 18,
                entries: &[
                    Spot::Row([0, 0], 1, 0),
                    Spot::Row([1, 1], 2, 1),
                    Spot::Row([2, 2], 5, 4),
                ],
            },
            Leaf {
                page: 18,
                level: 0,
                ssn: 0,
                next: 0,
                entries: &[Spot::Row([10, 10], 3, 2), Spot::Row([11, 11], 4, 3)],
            },
        ],
        told: Told {
            number: 4,
            growths: &[],
            raised: &[Lifted {
                page: 17,
                round: [0, 0, 11, 11],
            }],
            divisions: &[Part {
                old: 17,
                new: 18,
                old_box: [0, 0, 2, 2],
                new_box: [10, 10, 11, 11],
            }],
        },
    },
    // The last point makes its leaf's box grow before it is divided.
    Stage {
        taken: false,
        root: 16,
        points: &[
            [0, 0],
            [1, 1],
            [10, 10],
            [11, 11],
            [2, 2],
            [9, 9],
            [12, 12],
            [13, 13],
        ],
        tree: &[
            Leaf {
                page: 16,
                level: 1,
                ssn: 2,
                next: 0,
                entries: &[
                    Spot::Child([0, 0, 2, 2], 17),
                    Spot::Child([9, 9, 11, 11], 18),
                    Spot::Child([12, 12, 13, 13], 19),
                ],
            },
            Leaf {
                page: 17,
                level: 0,
                ssn: 1,
                next: 18,
                entries: &[
                    Spot::Row([0, 0], 1, 0),
                    Spot::Row([1, 1], 2, 1),
                    Spot::Row([2, 2], 5, 4),
                ],
            },
            Leaf {
                page: 18,
                level: 0,
                ssn: 2,
                next: 19,
                entries: &[
                    Spot::Row([10, 10], 3, 2),
                    Spot::Row([11, 11], 4, 3),
                    Spot::Row([9, 9], 6, 5),
                ],
            },
            Leaf {
                page: 19,
                level: 0,
                ssn: 0,
                next: 0,
                entries: &[Spot::Row([12, 12], 7, 6), Spot::Row([13, 13], 8, 7)],
            },
        ],
        told: Told {
            number: 7,
            growths: &[Grown {
                parent: 16,
                child: 18,
                old: [9, 9, 12, 12],
                new: [9, 9, 13, 13],
            }],
            raised: &[],
            divisions: &[Part {
                old: 18,
                new: 19,
                old_box: [9, 9, 11, 11],
                new_box: [12, 12, 13, 13],
            }],
        },
    },
];
