// One packet to a new card, and the first rule that applies to it. The octets are those that `scripts/card-vectors` makes
// with openssl.
use crate::Card;
use crate::test_cards::{card_on, expect, expect_answer, keyset, last_status};
use disk_model::MemDisk;
use ota_core::Mode;
use std::alloc::Global;
use std::test::Fail;

/// A keyset, a buffer, the messages of a packet, the answer, and the status of the line that is added.
#[derive(Drop)]
struct Row {
    kvn: u8,
    base: u64,
    mode: Mode,
    ciphered: bool,
    buffer: u32,
    messages: &'static str,
    answer: &'static str,
    line: Option<u8>,
}

fn answered() -> [Row; 6] {
    [
        // Three commands, the last refused.
        Row {
            kvn: 1,
            base: 0,
            mode: Mode::Higher,
            ciphered: true,
            buffer: 1024,
            messages: "02700000381516391212b000106512b72bf01bea6df7860781072d78af5318e78f84a52ec01c2bf2bfb4f1d0a7f97786daca97a62deea470515f4f803e",
            answer: "027100002412b00010c094f9e6c3f14fc26b23fc0f2f66ba100fa7c6a4b0901c18afefb744acf63433",
            line: Some(0x00),
        },
        // A record is updated.
        Row {
            kvn: 1,
            base: 0,
            mode: Mode::Higher,
            ciphered: true,
            buffer: 1024,
            messages: "02700000481516391212b000101bd899e12de26c03ba28c4abb4e151765b69ba2871012141be68ee4cff7d3f17f6b357dd2af3280e9e2f5d776b9b0b988577e776b20269fa9fc85bb6992c046d",
            answer: "027100002412b0001046bb6a6288fd79e5625808d4f9250c1163a4d4077b1a8579b575ed2f722ba26d",
            line: Some(0x00),
        },
        // Neither way ciphered.
        Row {
            kvn: 4,
            base: 0,
            mode: Mode::Higher,
            ciphered: false,
            buffer: 1024,
            messages: "027000002c1512294242b00010000000000100f0897cbb519d3d2500a40000027f1000a40000026f3a00d6000003aabbcc",
            answer: "027100001612b00010000000000100001aee500891eae9c1036981",
            line: Some(0x00),
        },
        // Fourteen commands.
        Row {
            kvn: 1,
            base: 0,
            mode: Mode::Higher,
            ciphered: true,
            buffer: 1024,
            messages: "02700000781516391212b00010f4cfc90d4abf5034bdb1b38d07c056c111427c4cbcb3de3e4361d6e838800ed32b04a17f46489e3d58dbef6360d3a9efa3ca48bceb9dc9e6b8685b389809fcb73c13230463e9f47c1067ec4cdebb6a12a3a55d3db2e17f1626744824f9c3f5afc09c50537f368465e506159b82d09525",
            answer: "027100002412b00010e1ac613bd3ee02c719eaf1a0e61caea6e98547675661d0117fa6fb342e707367",
            line: Some(0x00),
        },
        // A packet in two messages.
        Row {
            kvn: 1,
            base: 0,
            mode: Mode::Higher,
            ciphered: true,
            buffer: 1024,
            messages: "070003010201700000881516391212b000107e48169aac5f1eb4478d9c9ca2ceb4b777aac30e21d7773842718200b61d1115a98c0fd00d7bce255983aa04bebfb2c4c99c878bbf3e6b266c55be0f8422ddaf90e5769b55900762447eede98b546b91547b36cd86c9f8683ef986fca8ad5315f9212b357dd073450081dea9d4eb6afcf896a2688707f879748b 0500030102020baf2630104c",
            answer: "027100002412b00010f2b8e7f56a42c5bc48ce2d7264b1e36b0f934b47052e0a3abf2012a13853bc91",
            line: Some(0x00),
        },
        // One higher, as it is to be.
        Row {
            kvn: 1,
            base: 1,
            mode: Mode::Higher,
            ciphered: true,
            buffer: 1024,
            messages: "0270000048151e391212b00010e03796eb6dec5fc09e38850fab187df5b6663d7a5d0ce72fbe07a71fe60a38500fe8654f51cefa7da3d3eb2cd874619e6b9a729c114698d76e9cb9977f10b29f",
            answer: "027100002412b0001016ce425f6839429f6a47a13227f8968dea80cbf5c861bb7b832228c5cfe8acc0",
            line: Some(0x00),
        },
    ]
}

fn long() -> [Row; 1] {
    [
        // A script of 1,024 octets in eight messages, whose last command is cut off.
        Row {
            kvn: 1,
            base: 0,
            mode: Mode::Higher,
            ciphered: true,
            buffer: 1024,
            messages: "070003010801700004181516391212b0001033ab318fd9a8eb5ab779c1878eefb62cd88ccd52d93d459f697923b648f2c511c1b94fc4e3f2e1fcd1a4eaa7a43595d6dc86d8a34c3e95376060167f0fc824ba279a4e3ab4c5e015104965118369b1f586349cbd00836f3ed499e94174674da22f8e1a82c504f1b615158f3e1f15f26be55f4690b11bf19a9770 050003010802e2c7fbe14db85d090cbac95a47805cbfadb1976eeb0ea815d075682b25403fecce5b62583f2459ea5ec8efc076cbe2d614fe961a0e6927fc111094215f1ef970a6dce9ae920b9f1c426c5d226955efd40022da46476ff92a314cf7796e43d1df7ba3bb59bda954a3fa1aa85f495f6ca81a380ba2438f07869629af8afb7a1502a6b82962faf0 05000301080326bfc6b5122a1082840cc7b1cfbfa531cd210556b45b014778dad8f3218341f4e3a17bbca0d1815db135ee29459f5d548c6645f4d2078c49e56d53b33687301c07e227edf9e39748b84b48401e884bb295986ec4247b0f713e380fa8e7cd71c15eabee2ff70439f518e74566ad425f08208ac3a54809b5ebc5626650176c6921e3ae2891a16b 050003010804383e527020fac5d6cd45186f92a7dbc2d957de6fca74a11dd87dec41b652a8e9b8ae2eb5f602e9ea10a64c2aeec46e5d1c5542e28bc93291566c68a779dabb1d1de19be6c5aa6b0f4234ed8a8c4ede8d84427fb091be652be7780404c1809ba8b37efc4dde78598a741959a591011c246e22939de837b442230e0f232c03a689864c120c8799 0500030108053ba3bb6e6be135fdb9173a9025dcdab4e0b89bdc2309649f88780d151378a9db9a68f32bb4e29861ab7f156f62666296e4bc050795f7eab44a31b6d8c8189ebae967f803c835ed7627cf2fd27bcbacaafb4bf9c862692f8469f222a430b7755edbf5f411ea54d3acdca751e5979f18763c1ff65c01c1e177fc9fff5f68fec2f2ef635765d715 050003010806ac7e6670169471c744c7b4d34076f4ca3f7281cf6ccc9816c71e4e78c501133b28e262f3f4a019665d74a383ba49804f95c50c3468e198d93f6511702ea77107e3773e6ef683af4e5f0b20b9326a98cd40bdce0d9a34cb6446defb6b8d687ce6ac8e84453a92acff0bbfcd4e86b6a013b8fb78824670f32bb97f23d15bdada721ad04471674c 050003010807ef002a6d2ee7af442b88e50a898f6c8b1a07eef123990f9191409d9bea6d40bd62dabe6a965730b101c41dd30ba5b20653f6166d1e13640ace46d1d16168cfc9374742f4b07dda333145d72021fbf29a4e52d784b678c264350b45eeda3cc529a63fdc7669396249e22f59adc22bacd3b5e8a484376b226915aae8e02b313360cef3b6d15132 050003010808cfdaf824aee176a592b39f10a3df6740210370cafd895f0fd812a6584faee6713aac9c15c1430c312841b162a32033202185f376e50026062507ab95df7ebebe781346b70aea751a3ff19d43d83a362154bd581edcd19393ee1f9cdb2cbee07421b12004757b8e588302b423050ca8242733",
            answer: "027100002412b000109f48eaf60414307022d12e373998f7301e3e8ab10c80332e82a763445a09546c",
            line: Some(0x00),
        },
    ]
}

fn unsecured() -> [Row; 4] {
    [
        // 01: one bit of the cryptographic checksum is wrong.
        Row {
            kvn: 1,
            base: 0,
            mode: Mode::Higher,
            ciphered: true,
            buffer: 1024,
            messages: "02700000481516391212b0001054a726f4204bd2da39c9abc1abc1f53a281f17517b89a7c77ddd5c258292bfa1190f9068090f2413f75f654cc14a6bfffb3a15b53ae1100e378d26c4d72ef69d",
            answer: "027100000b0ab0001000000000070001",
            line: None,
        },
        // 06: a keyset that the card lacks.
        Row {
            kvn: 1,
            base: 0,
            mode: Mode::Higher,
            ciphered: true,
            buffer: 1024,
            messages: "02700000481516393232b00010a544ab305f35e68cbbe81179629da257a4c4f779972dee542ca524f89567e5e5a14d1186282fe8c2d24f29d3a9a20785bbc41da7a80c30836244bc6b66cb352b",
            answer: "027100000b0ab0001000000000000006",
            line: None,
        },
        // 06: the same.
        Row {
            kvn: 1,
            base: 0,
            mode: Mode::Higher,
            ciphered: true,
            buffer: 1024,
            messages: "02700000481516399292b00010cee0ba6db55a29207219d3ec430f3c3e4fb832b855a5162049e17904c44b5614ab4291b8e3845f04c25732376cb6de8dc49622e32254de36204fbca17febeb71",
            answer: "027100000b0ab0001000000000000006",
            line: None,
        },
        // 06: authentic, with more padding than octets.
        Row {
            kvn: 1,
            base: 0,
            mode: Mode::Higher,
            ciphered: false,
            buffer: 1024,
            messages: "027000002c1512291212b000100000000005c8472dc163ad23a94f00a40000027f1000a40000026f3a00d6000003aabbcc",
            answer: "027100000b0ab0001000000000000006",
            line: None,
        },
    ]
}

fn refused() -> [Row; 6] {
    [
        // 02: the counter is the one that is stored.
        Row {
            kvn: 1,
            base: 1,
            mode: Mode::Higher,
            ciphered: true,
            buffer: 1024,
            messages: "02700000381516391212b00010d090f55aa3fd61639721d6919565a84369e608fdb555cf9cdaf499f8eea3deced19d3335aef1f06558947bf5752630c9",
            answer: "027100001412b00010524522e28ebe6127fa698560872fbfee",
            line: None,
        },
        // 03: two higher.
        Row {
            kvn: 1,
            base: 1,
            mode: Mode::Higher,
            ciphered: true,
            buffer: 1024,
            messages: "0270000048151e391212b0001051b43be348ff88a28c32ea085902c10624597e8887b1c40194aa0652a3dda80cc77e71927aed3c4cfdc120bc9097cad241efbf2f8601ca50086c6c1348f2f6b7",
            answer: "027100001412b0001093bc76621865b887c30ad788804e320c",
            line: None,
        },
        // 04: the greatest counter is stored.
        Row {
            kvn: 3,
            base: 0xFF_FFFF_FFFF,
            mode: Mode::Higher,
            ciphered: true,
            buffer: 1024,
            messages: "02700000381516393232b00010a314800974d33a2064206f813cd27371f2c8c4a1ac610e05fad2482906b751972722b0dea4ade42c9c8a01c30144ac92",
            answer: "027100001412b00010205f1782e719f6122386a08ef3100640",
            line: None,
        },
        // 0A: not ciphered, for a keyset that is.
        Row {
            kvn: 1,
            base: 0,
            mode: Mode::Higher,
            ciphered: true,
            buffer: 1024,
            messages: "027000002c1512291212b00010000000000100c3395337f1fac8d700a40000027f1000a40000026f3a00d6000003aabbcc",
            answer: "027100001312b000100000000001000a9cce62776ad87877",
            line: None,
        },
        // 0A: the same, with the answer ciphered.
        Row {
            kvn: 1,
            base: 0,
            mode: Mode::Higher,
            ciphered: true,
            buffer: 1024,
            messages: "027000002c1512391212b00010000000000100226dbf6c606fc17300a40000027f1000a40000026f3a00d6000003aabbcc",
            answer: "027100001412b000103c5c437f37c5b8171c6dd9a5fdcbc610",
            line: None,
        },
        // 0A: any higher counter, for a keyset with the next one.
        Row {
            kvn: 2,
            base: 0,
            mode: Mode::Next,
            ciphered: true,
            buffer: 1024,
            messages: "02700000481516392222b00010d03c912490714e6eb0f4100a33876bfaded84032ce51c076cf73c008d7371986b7d5d7bbb0fe10ae4939d3fc0d509a12060cd2f5175456fb332513490952bdf3",
            answer: "027100001412b000103c5c437f37c5b8171c6dd9a5fdcbc610",
            line: None,
        },
    ]
}

fn unrun() -> [Row; 3] {
    [
        // 07: longer than the buffer of 64 octets.
        Row {
            kvn: 1,
            base: 0,
            mode: Mode::Higher,
            ciphered: true,
            buffer: 64,
            messages: "02700000781516391212b00010f4cfc90d4abf5034bdb1b38d07c056c111427c4cbcb3de3e4361d6e838800ed32b04a17f46489e3d58dbef6360d3a9efa3ca48bceb9dc9e6b8685b389809fcb73c13230463e9f47c1067ec4cdebb6a12a3a55d3db2e17f1626744824f9c3f5afc09c50537f368465e506159b82d09525",
            answer: "027100001412b00010114e52e6b09ae13e3cff8720274670c4",
            line: Some(0x07),
        },
        // 09: no application has the TAR.
        Row {
            kvn: 1,
            base: 0,
            mode: Mode::Higher,
            ciphered: true,
            buffer: 1024,
            messages: "02700000381516391212b00011ae209648e9ec3cec4b6b47b84355bd119c007c9479b0a424cc5080e0b57a3784b2902fb85a01b8c507aad09d5e0c0f3b",
            answer: "027100001412b00011d0aa3363c43262df8f7d9c2b667731c8",
            line: Some(0x09),
        },
        // 09: nor is it longer than the buffer, which comes behind.
        Row {
            kvn: 1,
            base: 0,
            mode: Mode::Higher,
            ciphered: true,
            buffer: 1,
            messages: "02700000381516391212b00011ae209648e9ec3cec4b6b47b84355bd119c007c9479b0a424cc5080e0b57a3784b2902fb85a01b8c507aad09d5e0c0f3b",
            answer: "027100001412b00011d0aa3363c43262df8f7d9c2b667731c8",
            line: Some(0x09),
        },
    ]
}

/// Sends a packet to a card. Fails where it answers otherwise or adds another line.
fn send(alloc: Global, card: &mut Card<MemDisk>, row: &Row) -> Result<(), Fail> {
    expect_answer(alloc, card, row.messages, row.answer)?;
    expect(last_status(card) == row.line, row.answer)
}

fn send_to_new(alloc: Global, row: &Row) -> Result<(), Fail> {
    let facts = keyset(row.base, row.mode, row.ciphered)?;
    let mut card = card_on(
        alloc,
        MemDisk::new(alloc),
        row.kvn,
        facts,
        row.buffer,
        false,
    )?;
    send(alloc, &mut card, row)
}

/// Sends each packet to a card of its own.
fn send_each(alloc: Global, rows: &[Row]) -> Result<(), Fail> {
    for row in rows {
        send_to_new(alloc, row)?;
    }
    Ok(())
}

#[test]
fn script_is_run_and_answered(rt: HostRuntime) -> Result<(), Fail> {
    send_each(rt.alloc(), &answered())
}

#[test]
fn long_script_is_run_and_answered(rt: HostRuntime) -> Result<(), Fail> {
    send_each(rt.alloc(), &long())
}

#[test]
fn packet_that_is_not_authentic_is_answered_unsecured(rt: HostRuntime) -> Result<(), Fail> {
    send_each(rt.alloc(), &unsecured())
}

#[test]
fn refused_counter_is_not_stored(rt: HostRuntime) -> Result<(), Fail> {
    send_each(rt.alloc(), &refused())
}

#[test]
fn script_that_is_not_run_uses_its_counter(rt: HostRuntime) -> Result<(), Fail> {
    send_each(rt.alloc(), &unrun())
}
