// What recovery makes of each image that a crash leaves of a device.
use crate::groups::{crash_after, sealed, step_on, used_after};
use crate::volumes::Volume;
use bfs_disk::{MemDisk, Stopping};
use bfs_replay::recover;
use std::alloc::{AllocError, Global};
use std::test::Fail;

/// Groups of so many blocks on a volume, and the step that writes each one's gate, by hand: behind b + ceil(b / 126) writes into
/// the log and a barrier. A group of b blocks takes 2 * b + ceil(b / 126) + 6 steps, and one without blocks takes one.
#[derive(Clone, Copy)]
struct Plan {
    volume: Volume,
    sizes: [u64; 3],
    gates: [u64; 3],
}

// The image that a crash leaves after so many steps, each sector old or new by the pick.
fn crashed(alloc: Global, plan: &Plan, steps: u64, pick: u64) -> Result<Vec<u8>, AllocError> {
    match sealed(alloc, &plan.volume, plan.sizes) {
        Some(device) => crash_after(device, steps, pick),
        None => Err(AllocError),
    }
}

// Recovers an image, stopped after so many disk calls.
fn stopped(alloc: Global, image: Vec<u8>, calls: u64, pick: u64) -> Result<Vec<u8>, AllocError> {
    if image.len() % 512 != 0 {
        return Err(AllocError);
    }
    let mut disk = Stopping::after(MemDisk::new(alloc, image), calls);
    let _ = recover(alloc, &mut disk);
    disk.inner().crash(pick)
}

// Recovers an image. Gives its bytes and its used blocks.
fn recovered(alloc: Global, image: Vec<u8>) -> Result<(Vec<u8>, u64), AllocError> {
    if image.len() % 512 != 0 {
        return Err(AllocError);
    }
    let mut disk = MemDisk::new(alloc, image);
    match recover(alloc, &mut disk) {
        Ok(sup) => Ok((disk.bytes(), sup.geometry().used)),
        Err(_) => Err(AllocError),
    }
}

// Is a gate open after so many steps? One that is written and not yet safe is where the superblock's sector is new.
fn is_open(gate: u64, steps: u64, newest: bool) -> bool {
    gate != 0 && (steps > gate || (steps == gate && newest))
}

// How many groups stand after so many steps.
fn standing(plan: &Plan, steps: u64, newest: bool) -> usize {
    let [one, two, three] = plan.gates;
    if is_open(three, steps, newest) {
        3
    } else if is_open(two, steps, newest) {
        2
    } else if is_open(one, steps, newest) {
        1
    } else {
        0
    }
}

// The byte that a block has after so many of the groups: that of the last one that has it.
fn byte_of(sizes: [u64; 3], groups: usize, i: u64) -> u8 {
    if groups >= 3 && i < sizes[2] {
        3
    } else if groups >= 2 && i < sizes[1] {
        2
    } else if groups >= 1 && i < sizes[0] {
        1
    } else {
        0
    }
}

// Has each block that a group has the bytes that it has after so many of them, and the block behind them none?
fn is_after(plan: &Plan, groups: usize, bytes: &[u8]) -> bool {
    let [one, two, three] = plan.sizes;
    let count = one.max(two).max(three);
    for i in 0..=count {
        let start = (plan.volume.first().wrapping_add(i) as usize).wrapping_mul(1024);
        let Some(block) = bytes.get(start..start.wrapping_add(1024)) else {
            return false;
        };
        if block != [byte_of(plan.sizes, groups, i); 1024].as_slice() {
            return false;
        }
    }
    true
}

// Is this what recovery has to give after so many steps?
fn is_right(alloc: Global, plan: &Plan, groups: usize, image: Vec<u8>) -> Result<bool, AllocError> {
    let (bytes, found) = recovered(alloc, image)?;
    let [one, two, three] = used_after(plan.sizes);
    let used = match groups {
        0 => 20,
        1 => one,
        2 => two,
        _ => three,
    };
    Ok(found == used && is_after(plan, groups, &bytes))
}

// Bits for some of ten sectors, those of a number's binary digits.
fn pick_of(sectors: &[u32], number: u64) -> u64 {
    let mut pick = 0;
    let mut rest = number;
    for sector in sectors {
        if rest % 2 == 1 {
            pick |= 1u64.wrapping_shl(*sector);
        }
        rest /= 2;
    }
    pick
}

// Two groups of two blocks with an empty one between them, on a volume of 32 blocks, whose log of 12 blocks begins at its place
// 10. The first stands in the blocks 12, 13 and 2, the last in 3, 4 and 5, and both go home to the blocks 16 and 17.
const SMALL: Plan = Plan {
    volume: Volume {
        blocks: 32,
        log: 12,
        place: 10,
    },
    sizes: [2, 0, 2],
    gates: [5, 0, 17],
};

// The sectors that may be old or new after a step from `from` to `to`.
#[derive(Clone, Copy)]
struct Window<'a> {
    from: u64,
    to: u64,
    sectors: &'a [u32],
}

const WINDOWS: [Window; 9] = [
    Window {
        from: 0,
        to: 4,
        sectors: &[24, 25, 26, 27, 4, 5],
    },
    Window {
        from: 5,
        to: 6,
        sectors: &[1],
    },
    Window {
        from: 7,
        to: 9,
        sectors: &[32, 33, 34, 35],
    },
    Window {
        from: 10,
        to: 11,
        sectors: &[1],
    },
    Window {
        from: 12,
        to: 12,
        sectors: &[],
    },
    Window {
        from: 13,
        to: 16,
        sectors: &[6, 7, 8, 9, 10, 11],
    },
    Window {
        from: 17,
        to: 18,
        sectors: &[1],
    },
    Window {
        from: 19,
        to: 21,
        sectors: &[32, 33, 34, 35],
    },
    Window {
        from: 22,
        to: 24,
        sectors: &[1],
    },
];

#[test]
fn every_crash_of_a_small_volume_is_recovered(rt: HostRuntime) -> Result<(), Fail> {
    let alloc = rt.alloc();
    for window in WINDOWS {
        let last = 1u64.wrapping_shl(window.sectors.len() as u32);
        for steps in window.from..=window.to {
            for number in 0..last {
                let pick = pick_of(window.sectors, number);
                let groups = standing(&SMALL, steps, pick == 2);
                let image = crashed(alloc, &SMALL, steps, pick)?;
                assert!(rt; is_right(alloc, &SMALL, groups, image)?, "{steps} {pick}");
            }
        }
    }
    Ok(())
}

// Stops the recovery of an image after so many calls. Tells whether it is recovered then, and what it is.
fn stopped_once(
    alloc: Global,
    plan: &Plan,
    groups: usize,
    image: &[u8],
    calls: u64,
    pick: u64,
) -> Result<(bool, Vec<u8>), AllocError> {
    let once = stopped(alloc, image.to_vec(alloc)?, calls, pick)?;
    let right = is_right(alloc, plan, groups, once.to_vec(alloc)?)?;
    Ok((right, once))
}

// Stops the recovery of an image after so many disk calls, again with the same and with one call less. Tells whether it is recovered
// after each.
fn is_stopped_thrice(
    alloc: Global,
    plan: &Plan,
    groups: usize,
    image: &[u8],
    calls: u64,
    pick: u64,
) -> Result<bool, AllocError> {
    let (first, once) = stopped_once(alloc, plan, groups, image, calls, pick)?;
    let (second, twice) = stopped_once(alloc, plan, groups, &once, calls, pick)?;
    let (third, _) = stopped_once(alloc, plan, groups, &twice, calls.saturating_sub(1), pick)?;
    Ok(first && second && third)
}

// The same after each number of disk calls.
fn is_stoppable(
    alloc: Global,
    plan: &Plan,
    groups: usize,
    image: &[u8],
    pick: u64,
) -> Result<bool, AllocError> {
    for calls in 0..13u64 {
        if !is_stopped_thrice(alloc, plan, groups, image, calls, pick)? {
            return Ok(false);
        }
    }
    Ok(true)
}

// The same by four picks, of the image that a crash leaves after so many steps.
fn is_stoppable_after(alloc: Global, steps: u64, pick: u64) -> Result<bool, AllocError> {
    let groups = standing(&SMALL, steps, pick & 2 == 2);
    let image = crashed(alloc, &SMALL, steps, pick)?;
    for again in [0, u64::MAX, 0x5555_5555_5555_5555, 0xaaaa_aaaa_aaaa_aaaa] {
        if !is_stoppable(alloc, &SMALL, groups, &image, again)? {
            return Ok(false);
        }
    }
    Ok(true)
}

#[test]
fn a_recovery_may_be_stopped_three_times(rt: HostRuntime) -> Result<(), Fail> {
    let alloc = rt.alloc();
    for steps in 0..25u64 {
        for pick in [0, u64::MAX, 0x5555_5555_5555_5555, 0xaaaa_aaaa_aaaa_aaaa] {
            assert!(rt; is_stoppable_after(alloc, steps, pick)?, "{steps} {pick}");
        }
    }
    Ok(())
}

// A volume whose log of 420 blocks begins at its place 300, so that groups of 126 blocks and more wrap at its end.
const WIDE: Volume = Volume {
    blocks: 840,
    log: 420,
    place: 300,
};

const PLANS: [Plan; 8] = [
    Plan {
        volume: WIDE,
        sizes: [0, 0, 0],
        gates: [0, 0, 0],
    },
    Plan {
        volume: WIDE,
        sizes: [1, 0, 0],
        gates: [4, 0, 0],
    },
    Plan {
        volume: WIDE,
        sizes: [126, 0, 0],
        gates: [129, 0, 0],
    },
    Plan {
        volume: WIDE,
        sizes: [127, 0, 0],
        gates: [131, 0, 0],
    },
    Plan {
        volume: WIDE,
        sizes: [400, 0, 0],
        gates: [406, 0, 0],
    },
    Plan {
        volume: WIDE,
        sizes: [126, 127, 400],
        gates: [129, 390, 927],
    },
    Plan {
        volume: WIDE,
        sizes: [400, 0, 1],
        gates: [406, 0, 815],
    },
    Plan {
        volume: WIDE,
        sizes: [0, 400, 127],
        gates: [0, 407, 942],
    },
];

// Pushes those of so many sectors in which two images differ.
fn push_open(sectors: &mut Vec<u32>, count: u32, old: &[u8], new: &[u8]) -> Result<(), AllocError> {
    for sector in 0..count {
        let start = (sector as usize).wrapping_mul(512);
        let Some(before) = old.get(start..start.wrapping_add(512)) else {
            return Err(AllocError);
        };
        let Some(after) = new.get(start..start.wrapping_add(512)) else {
            return Err(AllocError);
        };
        if before != after {
            sectors.push(sector)?;
        }
    }
    Ok(())
}

// The sectors of a volume that a crash now may leave old or new, where the two differ.
fn open_sectors(alloc: Global, volume: &Volume, disk: &MemDisk) -> Result<Vec<u32>, AllocError> {
    let old = disk.crash(0)?;
    let new = disk.crash(u64::MAX)?;
    let mut sectors = Vec::new(alloc);
    push_open(&mut sectors, volume.blocks.wrapping_mul(2), &old, &new)?;
    Ok(sectors)
}

// Is the image of this pick recovered?
fn is_right_for(
    alloc: Global,
    plan: &Plan,
    steps: u64,
    disk: &MemDisk,
    pick: u64,
) -> Result<bool, AllocError> {
    let groups = standing(plan, steps, pick & 2 == 2);
    is_right(alloc, plan, groups, disk.crash(pick)?)
}

// Is each crash of this disk recovered, with these sectors open?
fn is_right_with(
    alloc: Global,
    plan: &Plan,
    steps: u64,
    disk: &MemDisk,
    sectors: &[u32],
) -> Result<bool, AllocError> {
    if sectors.len() > 10 {
        return Ok(
            is_right_for(alloc, plan, steps, disk, 0)?
                && is_right_for(alloc, plan, steps, disk, u64::MAX)?,
        );
    }
    for number in 0..1u64.wrapping_shl(sectors.len() as u32) {
        if !is_right_for(alloc, plan, steps, disk, pick_of(sectors, number))? {
            return Ok(false);
        }
    }
    Ok(true)
}

// The same with those that are open.
fn is_right_of(alloc: Global, plan: &Plan, steps: u64, disk: &MemDisk) -> Result<bool, AllocError> {
    let sectors = open_sectors(alloc, &plan.volume, disk)?;
    is_right_with(alloc, plan, steps, disk, &sectors)
}

// Is each crash after so many steps recovered? Every pick is tried where at most ten sectors are open, else all old and all new.
fn is_right_after(alloc: Global, plan: &Plan, steps: u64) -> Result<bool, AllocError> {
    match sealed(alloc, &plan.volume, plan.sizes) {
        Some(mut device) => {
            if !step_on(&mut device, steps) {
                return Err(AllocError);
            }
            is_right_of(alloc, plan, steps, &device.into_disk())
        }
        None => Err(AllocError),
    }
}

#[test]
fn a_group_of_each_size_is_recovered_after_each_step(rt: HostRuntime) -> Result<(), Fail> {
    let alloc = rt.alloc();
    for (plan, total) in [
        (PLANS[0], 4u64),
        (PLANS[1], 12),
        (PLANS[2], 262),
        (PLANS[3], 265),
        (PLANS[4], 813),
    ] {
        for steps in 0..=total {
            assert!(rt; is_right_after(alloc, &plan, steps)?, "{steps}");
        }
    }
    Ok(())
}

#[test]
fn three_groups_are_recovered(rt: HostRuntime) -> Result<(), Fail> {
    let alloc = rt.alloc();
    for (plan, total) in [(PLANS[5], 1332u64), (PLANS[6], 821), (PLANS[7], 1074)] {
        for steps in 0..=total {
            assert!(rt; is_right_after(alloc, &plan, steps)?, "{steps}");
        }
    }
    Ok(())
}

// Stops the recovery of an image with one group twice after so many calls. Tells whether it is recovered then.
fn is_right_twice(
    alloc: Global,
    plan: &Plan,
    image: &[u8],
    calls: u64,
) -> Result<bool, AllocError> {
    let once = stopped(alloc, image.to_vec(alloc)?, calls, 0x5555_5555_5555_5555)?;
    let twice = stopped(alloc, once, calls, 0xaaaa_aaaa_aaaa_aaaa)?;
    is_right(alloc, plan, 1, twice)
}

#[test]
fn a_long_recovery_may_be_stopped(rt: HostRuntime) -> Result<(), Fail> {
    let alloc = rt.alloc();
    let plan = PLANS[4];
    // Two calls, four array blocks; then four array blocks again and two calls for each of 400 blocks; then three.
    let image = crashed(alloc, &plan, 408, 0)?;
    for calls in [5, 6, 7, 130, 400, 808, 809, 810, 811, 812, 813, 814] {
        assert!(rt; is_right_twice(alloc, &plan, &image, calls)?, "{calls}");
    }
    Ok(())
}
