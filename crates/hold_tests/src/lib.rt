// Scenarios that a hold has to pass, run on the three holds. Loops go by the number of a place, which is what a hold's calls take, and
// lend the changing hold to one call after the other, which a closure of an iterator would have to keep.
#![tactic(auto)]

#[cfg(test)]
mod tests {
    use hold::empty::Empty;
    use hold::operations::{Operation, Task, perform};
    use hold::{Hold, drop_all, try_out};
    use packed::{Packed, Span};
    use std::test::Fail;
    use striped::Striped;
    use table::Table;

    // Four frames, the shortest and the longest among them.
    const LENGTHS: [usize; 4] = [23, 1023, 100, 512];

    // Writes a frame to the buffer whose bytes tell its place.
    fn write_frame(buffer: &mut [u8], place: usize) {
        for (i, byte) in buffer.iter_mut().enumerate() {
            *byte = ((i % 200) + place % 4) as u8;
        }
    }

    // Keeps the place's frame of the four.
    fn keep_frame<H: Hold>(hold: &mut H, place: usize, buffer: &mut [u8]) -> bool {
        let n = LENGTHS[place % 4];
        if buffer.len() < n {
            return false;
        }
        write_frame(buffer, place);
        hold.keep(place, &buffer[0..n])
    }

    // Whether the place holds its frame of the four, byte for byte.
    fn holds_frame<H: Hold>(hold: &H, place: usize, buffer: &mut [u8], out: &mut [u8]) -> bool {
        let n = LENGTHS[place % 4];
        if buffer.len() < n || out.len() < n {
            return false;
        }
        if hold.look(place) != Some(n) || !hold.copy(place, out) {
            return false;
        }
        write_frame(buffer, place);
        out[0..n] == buffer[0..n]
    }

    // Empties the hold and keeps the four frames at the first four places.
    fn keep_four<H: Hold>(hold: &mut H, buffer: &mut [u8]) -> bool {
        drop_all(hold);
        let mut kept = true;
        for place in 0..4usize {
            kept = keep_frame(hold, place, buffer) && kept;
        }
        kept && hold.taken() == 4
    }

    // Whether exactly the places from `from` on in the order still hold their frames.
    fn holds_rest<H: Hold>(
        hold: &H,
        order: &[usize; 4],
        from: usize,
        buffer: &mut [u8],
        out: &mut [u8],
    ) -> bool {
        let mut right = from <= 4 && hold.taken() == 4 - from;
        for (i, place) in order.iter().enumerate() {
            if i < from {
                right = hold.look(*place) == None && !hold.copy(*place, out) && right;
            } else {
                right = holds_frame(hold, *place, buffer, out) && right;
            }
        }
        right
    }

    // Drops the four frames in the order. The rest stays as it was, and what a drop frees is used again.
    fn drops_in_order<H: Hold>(
        hold: &mut H,
        order: &[usize; 4],
        buffer: &mut [u8],
        out: &mut [u8],
    ) -> bool {
        let mut right = keep_four(hold, buffer);
        for (i, place) in order.iter().enumerate() {
            hold.drop(*place);
            right = holds_rest(hold, order, i + 1, buffer, out) && right;
            right = keep_frame(hold, *place, buffer)
                && holds_rest(hold, order, i, buffer, out)
                && right;
            hold.drop(*place);
        }
        right
    }

    // Every order of the four places.
    fn drops_in_every_order<H: Hold>(hold: &mut H, buffer: &mut [u8], out: &mut [u8]) -> bool {
        let mut right = true;
        for code in 0..256usize {
            let order = [code % 4, code / 4 % 4, code / 16 % 4, code / 64];
            if differ(&order) {
                right = drops_in_order(hold, &order, buffer, out) && right;
            }
        }
        right
    }

    // Whether each of the four places is in the order, and so each once.
    fn differ(order: &[usize; 4]) -> bool {
        (0..4usize).all(|place| order.contains(&place))
    }

    // Keeps the frame at each place in turn, and tells how many places took it.
    fn fill<H: Hold>(hold: &mut H, frame: &[u8]) -> usize {
        let mut stored: usize = 0;
        for place in 0..hold.places() {
            if hold.keep(place, frame) {
                stored = stored.saturating_add(1);
            }
        }
        stored
    }

    // Whether the hold has so many places and takes so many of these frames, no more by a second round, and none past
    // its places.
    fn takes_frames<H: Hold>(hold: &mut H, places: usize, frame: &[u8], frames: usize) -> bool {
        drop_all(hold);
        let first = fill(hold, frame);
        let second = fill(hold, frame);
        let past = hold.keep(places, frame);
        hold.places() == places && first == frames && second == 0 && !past && hold.taken() == frames
    }

    // Whether the first place takes a frame of so many bytes.
    fn takes_length<H: Hold>(hold: &mut H, buffer: &[u8], n: usize) -> bool {
        drop_all(hold);
        n <= buffer.len() && hold.keep(0, &buffer[0..n])
    }

    // Frames of 23 to 1,023 bytes are kept, and no other.
    fn keeps_frames_only<H: Hold>(hold: &mut H, buffer: &[u8]) -> bool {
        takes_length(hold, buffer, 23)
            && takes_length(hold, buffer, 1023)
            && !takes_length(hold, buffer, 22)
            && !takes_length(hold, buffer, 1024)
            && !takes_length(hold, buffer, 0)
    }

    // Whether the bytes are so many of one value, and then all of another.
    fn reads(bytes: &[u8], front: usize, first: u8, then: u8) -> bool {
        bytes
            .iter()
            .enumerate()
            .all(|(i, byte)| *byte == if i < front { first } else { then })
    }

    // A copy writes the frame and nothing behind it, and an output that is one byte short is left as it is.
    fn copies_exactly<H: Hold>(
        hold: &mut H,
        frame: &[u8],
        out: &mut [u8],
        short: &mut [u8],
    ) -> bool {
        drop_all(hold);
        out.fill(9);
        short.fill(9);
        let kept = hold.keep(0, frame);
        let copied = hold.copy(0, out);
        let refused = !hold.copy(0, short);
        kept && copied && refused && reads(out, frame.len(), 7, 9) && reads(short, 0, 7, 9)
    }

    // Bytes, and how many places they make.
    const STRIPED: [(usize, usize); 6] = [
        (1022, 0),
        (1023, 1),
        (2045, 1),
        (32735, 31),
        (32736, 32),
        (33759, 32),
    ];

    fn striped_takes(bytes: &mut [u8], frame: &[u8], places: usize) -> bool {
        let mut hold = Striped::new(bytes);
        takes_frames(&mut hold, places, frame, places)
    }

    fn striped_rows(bytes: &mut [u8], frame: &[u8]) -> bool {
        let mut right = true;
        for (n, places) in STRIPED.iter() {
            right = *n <= bytes.len() && striped_takes(&mut bytes[0..*n], frame, *places) && right;
        }
        right
    }

    #[test]
    fn striped_places(rt: HostRuntime) -> Result<(), Fail> {
        let heap = rt.alloc();
        let frame = vec![in heap; 7u8; 1023]?;
        let mut bytes = vec![in heap; 0u8; 33759]?;
        assert!(rt; striped_rows(&mut bytes, &frame));
        Ok(())
    }

    // Spans, bytes, the length of a frame, and how many places and how many such frames there are then.
    struct Row(usize, usize, usize, usize, usize);

    // No span; one, with just enough bytes and with one byte less; 64, filled by the longest frames, and with one byte
    // less; more spans and bytes than are used.
    const PACKED: [Row; 6] = [
        Row(0, 66000, 23, 0, 0),
        Row(1, 23, 23, 1, 1),
        Row(1, 22, 23, 1, 0),
        Row(64, 65472, 1023, 64, 64),
        Row(64, 65471, 1023, 64, 63),
        Row(70, 66000, 1023, 64, 64),
    ];

    fn packed_takes(
        spans: usize,
        bytes: &mut [u8],
        frame: &[u8],
        places: usize,
        frames: usize,
    ) -> bool {
        let mut table: [Option<Span>; 70] = [None; 70];
        let spans = spans.min(70);
        let mut hold = Packed::new(&mut table[0..spans], bytes);
        takes_frames(&mut hold, places, frame, frames)
    }

    fn packed_rows(bytes: &mut [u8], frame: &[u8]) -> bool {
        let mut right = true;
        for Row(spans, n, len, places, frames) in PACKED.iter() {
            right = *n <= bytes.len()
                && *len <= frame.len()
                && packed_takes(*spans, &mut bytes[0..*n], &frame[0..*len], *places, *frames)
                && right;
        }
        right
    }

    // As for the striped hold, over another memory.
    #[test]
    fn packed_places(rt: HostRuntime) -> Result<(), Fail> {
        let heap = rt.alloc();
        let frame = vec![in heap; 7u8; 1023]?;
        let mut bytes = vec![in heap; 0u8; 66000]?;
        assert!(rt; packed_rows(&mut bytes, &frame));
        Ok(())
    }

    // The three scenarios above, with buffers cut from the memory.
    fn passes<H: Hold>(hold: &mut H, memory: &mut [u8]) -> bool {
        if memory.len() < 2146 {
            return false;
        }
        memory.fill(7);
        let (buffer, rest) = memory.split_at_mut(1024);
        let (out, short) = rest.split_at_mut(1023);
        let kept = keeps_frames_only(hold, buffer);
        let copied = copies_exactly(hold, &buffer[0..100], out, &mut short[0..99]);
        kept && copied && drops_in_every_order(hold, buffer, out)
    }

    #[test]
    fn striped_frames(rt: HostRuntime) -> Result<(), Fail> {
        let heap = rt.alloc();
        let mut bytes = vec![in heap; 0u8; 4092]?;
        let mut memory = vec![in heap; 0u8; 2146]?;
        let mut hold = Striped::new(&mut bytes);
        assert!(rt; passes(&mut hold, &mut memory));
        Ok(())
    }

    // The four frames of 1,658 bytes together fill the bytes.
    #[test]
    fn packed_frames(rt: HostRuntime) -> Result<(), Fail> {
        let heap = rt.alloc();
        let mut spans: [Option<Span>; 4] = [None; 4];
        let mut bytes = vec![in heap; 0u8; 1658]?;
        let mut memory = vec![in heap; 0u8; 2146]?;
        let mut hold = Packed::new(&mut spans, &mut bytes);
        assert!(rt; passes(&mut hold, &mut memory));
        Ok(())
    }

    // One generic function on the three holds.
    #[test]
    fn tried_out(rt: HostRuntime) -> Result<(), Fail> {
        let heap = rt.alloc();
        let mut spans: [Option<Span>; 2] = [None; 2];
        let mut bytes = vec![in heap; 0u8; 1023]?;
        let mut more = vec![in heap; 0u8; 100]?;
        let mut out = [0u8; 30];
        let mut striped = Striped::new(&mut bytes);
        let mut packed = Packed::new(&mut spans, &mut more);
        assert_eq!(rt; try_out(&mut striped, 0, &[5u8; 24], &mut out), Some(24));
        assert_eq!(rt; try_out(&mut packed, 1, &[6u8; 25], &mut out), Some(25));
        assert_eq!(rt; try_out(&mut packed, 2, &[6u8; 25], &mut out), None);
        assert_eq!(rt; try_out(&mut Empty, 0, &[7u8; 26], &mut out), None);
        assert!(rt; out[0] == 6 && out[24] == 6 && out[25] == 0);
        Ok(())
    }

    fn keep(place: usize, frame: &[u8]) -> Operation<'_> {
        Operation {
            task: Task::Keep(place, frame),
            stored: false,
        }
    }

    fn drop_at(place: usize) -> Operation<'static> {
        Operation {
            task: Task::Drop(place),
            stored: false,
        }
    }

    // The second frame wants one byte more than is left, until the first is dropped.
    #[test]
    fn performed(rt: HostRuntime) {
        let mut spans: [Option<Span>; 2] = [None; 2];
        let mut bytes = [0u8; 50];
        let mut hold = Packed::new(&mut spans, &mut bytes);
        let mut list = [
            keep(0, &[1u8; 25]),
            keep(1, &[2u8; 26]),
            drop_at(0),
            keep(1, &[3u8; 26]),
        ];
        perform(&mut hold, &mut list);
        assert!(rt; list[0].stored && !list[1].stored && !list[2].stored && list[3].stored);
        assert_eq!(rt; hold.look(0), None);
        assert_eq!(rt; hold.look(1), Some(26));
    }

    // The numbered table, with entries that are numbers.
    #[test]
    fn numbered_table(rt: HostRuntime) {
        let mut entries: [Option<u32>; 3] = [Some(1); 3];
        let mut table = Table::new(&mut entries);
        assert!(rt; table.places() == 3 && table.count() == 0);
        assert!(rt; table.put(2, 7) && table.put(2, 8) && !table.put(3, 9));
        assert!(rt; table.count() == 1);
        assert_eq!(rt; table.get(2), Some(8));
        assert_eq!(rt; table.remove(2), Some(8));
        assert_eq!(rt; table.remove(2), None);
        table.entries_mut().fill(Some(5));
        assert!(rt; table.count() == 3);
        assert_eq!(rt; table.get(0), Some(5));
    }
}
