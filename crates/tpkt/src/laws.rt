//! Laws of streams: each is the contract of a function that does nothing.

ghost use Rattle.std.specs.Prelude.{◌≡◌, ℕ, ◌<◌, ◌≤◌, ◌++◌, ◌∷◌, List, [], length, take, Option, Some, None, Err, Ok};
ghost use Rattle.osi_base.specs.declared.layer_words.Kind.{Kind};
ghost use Rattle.osi_base.specs.Limits.{tsdu_limit, unit_least, unit_most};
ghost use Rattle.osi_base.specs.Octets.{AreOctets};
ghost use Rattle.tpkt.specs.declared.reader_state.ReaderState.{ReaderState};
ghost use Rattle.tpkt.specs.declared.packet.TFault.{TFault};
ghost use Rattle.tpkt.specs.declared.header_stops.Stop.{Stop};
ghost use Rattle.tpkt.specs.declared.packet.ConnectionFields.{ConnectionFields};
ghost use Rattle.tpkt.specs.declared.packet.Packet.{Packet};
ghost use Rattle.tpkt.specs.declared.packet.Packet.TheVariants.{Connect, Confirm, Disconnect, Problem, Tsdu};
ghost use Rattle.tpkt.specs.Wire.{packet, header, two, Tpdu, Whole, IsTwo, IsUnit, Splits, begun_by, handed_for, handed};
ghost use Rattle.tpkt.specs.Written.{written_tsdu, connection_fields, control_packet, HasRoom};
ghost use Rattle.tpkt.specs.Reader.{reading, nothing};
ghost use Rattle.tpkt.specs.Stream.{unit_at, OneHolds, ReadsAsPackets, HasRead, IsReadAs};

/// What a reader made of a stream, in whatever pieces it came: the packets of its units, and its
/// first fault with the place counted from the first octet of the stream.
pub fn stream_is_read()
    ensures { (stream : List ℕ) (packets : List Packet) (held : ReaderState) → AreOctets stream
        → HasRead stream packets (Some held) → ReadsAsPackets stream packets held.fault }
{}

/// A packet is handed up with its last octet, and not before.
pub fn up_with_its_last_octet()
    ensures { (came bytes : List ℕ) (us : List Tpdu) (rest : List ℕ) (u : Tpdu) (unit : List ℕ)
        → AreOctets (came ++ bytes) → Splits [] came us rest → IsUnit (begun_by [] us) u unit
        → packet unit ≡ rest ++ bytes → 0 < length bytes
        → ((reading nothing came).packets ≡ handed [] us)
        × ((reading nothing (came ++ bytes)).packets
        ≡ handed [] us ++ handed_for (begun_by [] us) u) }
{}

/// Two feeds give together what one feed of all their octets gives.
pub fn any_cutting()
    ensures { (held : ReaderState) (xs ys : List ℕ)
        → let a = reading held xs in let b = reading a.held ys in
        reading held (xs ++ ys) ≡ record { packets = a.packets ++ b.packets; held = b.held } }
{}

/// After a fault each feed leaves the reader as it is, and gives no packet.
pub fn fault_stays_held()
    ensures { (held : ReaderState) (fault : TFault) (xs : List ℕ) → held.fault ≡ Some fault
        → reading held xs ≡ record { packets = []; held = held } }
{}

/// A stream is split in one way: into the units up to where no further unit is there.
pub fn one_split()
    ensures { (begun stream : List ℕ) (us vs : List Tpdu) (rest more : List ℕ) (s t : Stop)
        → Splits begun stream us rest → unit_at (begun_by begun us) rest ≡ Err s
        → Splits begun stream vs more → unit_at (begun_by begun vs) more ≡ Err t → (us ≡ vs)
        × (rest ≡ more) }
{}

/// The unit that is read at the front of a stream is spelled there.
pub fn unit_is_spelled()
    ensures { (begun xs : List ℕ) (u : Tpdu) (rest : List ℕ) → AreOctets xs
        → unit_at begun xs ≡ Ok (u, rest)
        → (unit : List ℕ) × IsUnit begun u unit × (xs ≡ packet unit ++ rest) }
{}

/// A unit that is spelled at the front of a stream is read, whatever follows.
pub fn spelled_unit_is_read()
    ensures { (begun : List ℕ) (u : Tpdu) (unit more : List ℕ) → IsUnit begun u unit
        → unit_at begun (packet unit ++ more) ≡ Ok (u, more) }
{}

/// A fault stands whatever follows.
pub fn fault_stays()
    ensures { (begun xs ys : List ℕ) (o : ℕ) (k : Kind) → unit_at begun xs ≡ Err (Stop.At o k)
        → unit_at begun (xs ++ ys) ≡ Err (Stop.At o k) }
{}

/// The faulty field is there, and the octets before it are right so far.
pub fn right_before_a_fault()
    ensures { (begun xs : List ℕ) (o : ℕ) (k : Kind) → unit_at begun xs ≡ Err (Stop.At o k)
        → (o < length xs) × (unit_at begun (take o xs) ≡ Err Stop.Short) }
{}

/// A beginning of a packet is right so far, and less than a packet.
pub fn less_than_a_packet()
    ensures { (begun : List ℕ) (u : Tpdu) (unit xs ys : List ℕ) → AreOctets xs
        → IsUnit begun u unit → packet unit ≡ xs ++ ys → 0 < length ys
        → unit_at begun xs ≡ Err Stop.Short }
{}

/// Octets with a fault begin no packet.
pub fn faulty_begins_no_packet()
    ensures { (begun xs ys more : List ℕ) (o : ℕ) (k : Kind) (u : Tpdu) (unit : List ℕ)
        → unit_at begun xs ≡ Err (Stop.At o k) → IsUnit begun u unit
        → xs ++ ys ≡ packet unit ++ more → ⊥ }
{}

/// Of all octets one holds and no other: a unit stands in front, there is a first fault, or nothing
/// is wrong yet and more must come.
pub fn one_of_three()
    ensures { (begun xs : List ℕ) → AreOctets xs → OneHolds begun xs }
{}

/// A TSDU that is written stands in front of other units, and is handed up as it is.
pub fn written_tsdu_is_split()
    ensures { (size : ℕ) (tsdu more : List ℕ) (us : List Tpdu) (rest : List ℕ) → unit_least ≤ size
        → size ≤ unit_most → length tsdu ≤ tsdu_limit → Splits [] more us rest
        → (parts : List Tpdu) × Splits [] (written_tsdu size tsdu ++ more) (parts ++ us) rest
        × (handed [] (parts ++ us) ≡ Tsdu tsdu ∷ handed [] us) }
{}

/// A TSDU that is written is read back by a new reader, with nothing left.
pub fn written_tsdu_is_read()
    ensures { (size : ℕ) (tsdu : List ℕ) → unit_least ≤ size
        → size ≤ unit_most → length tsdu ≤ tsdu_limit → AreOctets tsdu
        → let f = reading nothing (written_tsdu size tsdu) in (f.packets ≡ Tsdu tsdu ∷ [])
        × (f.held.fault ≡ None) }
{}

/// A connection request that is written is one, and so on.
pub fn written_units()
    ensures connect { (begun : List ℕ) (ends : ConnectionFields) → IsTwo ends.destination
        → IsTwo ends.source → HasRoom ends
        → IsUnit begun (Whole (Connect ends)) (header (connection_fields 224 ends)) }
    ensures confirm { (begun : List ℕ) (ends : ConnectionFields) → IsTwo ends.destination
        → IsTwo ends.source → HasRoom ends
        → IsUnit begun (Whole (Confirm ends)) (header (connection_fields 208 ends)) }
    ensures disconnect { (begun : List ℕ) (destination source reason : ℕ) → IsTwo destination
        → IsTwo source
        → IsUnit begun (Whole Disconnect) (header (128 ∷ two destination ++ two source
        ++ reason ∷ [])) }
    ensures problem { (begun : List ℕ) (destination cause : ℕ)
        → IsUnit begun (Whole Problem) (header (112 ∷ two destination ++ cause ∷ [])) }
{}

/// A unit that is written is read back by a new reader as the packet that it is, with its fields.
pub fn written_units_are_read()
    ensures connect { (ends : ConnectionFields) → IsTwo ends.destination → IsTwo ends.source
        → HasRoom ends
        → let octets = control_packet (connection_fields 224 ends) in AreOctets octets
        → IsReadAs (Connect ends) octets }
    ensures confirm { (ends : ConnectionFields) → IsTwo ends.destination → IsTwo ends.source
        → HasRoom ends
        → let octets = control_packet (connection_fields 208 ends) in AreOctets octets
        → IsReadAs (Confirm ends) octets }
    ensures disconnect { (destination source reason : ℕ) → IsTwo destination → IsTwo source
        → let octets = control_packet (128 ∷ two destination ++ two source ++ reason ∷ []) in
        AreOctets octets → IsReadAs Disconnect octets }
    ensures problem { (destination cause : ℕ)
        → let octets = control_packet (112 ∷ two destination ++ cause ∷ []) in
        AreOctets octets → IsReadAs Problem octets }
{}

/// The units of two streams, one after the other, and what is handed up for them.
pub fn streams_join()
    ensures splits { (begun xs ys : List ℕ) (us vs : List Tpdu) (rest : List ℕ)
        → Splits begun xs us [] → Splits (begun_by begun us) ys vs rest
        → Splits begun (xs ++ ys) (us ++ vs) rest }
    ensures handed { (begun : List ℕ) (us vs : List Tpdu)
        → handed begun (us ++ vs) ≡ handed begun us ++ handed (begun_by begun us) vs }
{}

/// A stream that is split with less than a unit left is read so, without a fault.
pub fn split_is_read()
    ensures { (stream : List ℕ) (us : List Tpdu) (rest : List ℕ) → AreOctets stream
        → Splits [] stream us rest → unit_at (begun_by [] us) rest ≡ Err Stop.Short
        → let f = reading nothing stream in (f.packets ≡ handed [] us) × (f.held.fault ≡ None) }
{}
