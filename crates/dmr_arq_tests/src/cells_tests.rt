//! The bitmap of cells against the plain program, a list of cells.
use arrayvec::ArrayVec;
use dmr_arq::Cells;
use dmr_data::{BLOCK_LIMIT, MOST_BLOCKS, Octets, PACKET_LIMIT};

/// The plain program of `Cells`: a list of cells.
#[derive(Drop)]
struct ListedCells {
    cells: ArrayVec<Option<Octets<BLOCK_LIMIT>>, MOST_BLOCKS>,
}

impl ListedCells {
    fn new(blocks: usize) -> Self {
        let mut cells = ArrayVec::new();
        for _ in 0..blocks {
            let _ = cells.try_push(None);
        }
        ListedCells { cells }
    }

    fn put(&mut self, serial: usize, octets: &Octets<BLOCK_LIMIT>) {
        if let Some(cell) = self.cells.as_mut_slice().get_mut(serial) {
            if cell.is_none() {
                *cell = Some(octets.copy());
            }
        }
    }

    fn flags(&self) -> u128 {
        let mut flags = 0;
        let mut flag: u128 = 1;
        for cell in self.cells.as_slice() {
            if cell.is_some() {
                flags |= flag;
            }
            flag <<= 1;
        }
        flags
    }

    fn whole(&self) -> Option<ArrayVec<u8, PACKET_LIMIT>> {
        let mut all = ArrayVec::new();
        for cell in self.cells.as_slice() {
            match cell {
                Some(octets) => {
                    let _ = all.try_extend_from_slice(octets.as_slice());
                }
                None => return None,
            }
        }
        Some(all)
    }
}

/// Whether both have the same flags and the same octets.
fn agree(cells: &Cells, listed: &ListedCells) -> bool {
    let same = match (cells.whole(), listed.whole()) {
        (Some(a), Some(b)) => a.as_slice() == b.as_slice(),
        (None, None) => true,
        _ => false,
    };
    same && cells.flags() == listed.flags()
}

/// Puts the same block in both.
fn put_in_both(cells: &mut Cells, listed: &mut ListedCells, serial: usize, octet: u8) {
    let octets = Octets::from_slice(&[octet, octet / 2]);
    cells.put(serial, &octets);
    listed.put(serial, &octets);
}

#[test]
fn cells_are_those_of_the_list(rt: HostRuntime) {
    let mut seed: u32 = 1;
    for blocks in 1..128usize {
        let mut cells = Cells::new(blocks);
        let mut listed = ListedCells::new(blocks);
        for _ in 0..100u32 {
            seed = seed.wrapping_mul(1_103_515_245).wrapping_add(12345);
            put_in_both(
                &mut cells,
                &mut listed,
                (seed / 65536 % 130) as usize,
                (seed % 256) as u8,
            );
            assert!(rt; agree(&cells, &listed));
        }
        for serial in 0..blocks {
            put_in_both(&mut cells, &mut listed, serial, 1);
        }
        assert!(rt; cells.whole().is_some() && agree(&cells, &listed));
    }
}
