use crate::standing::served;
use std::alloc::{AllocError, Global};
use std::test::Fail;
use std::vec;

/// Two requests, and one for a path without a route.
const THREE: &[u8] =
    b"POST /try HTTP/1.1\r\nContent-Length: 3\r\nProofgame-Pass: p\r\n\r\nabc\n\r\nGET /me?x HTTP/1.1\n\nGET /you HTTP/1.1\r\n\r\n";

/// What comes of them.
const OF_THREE: &str =
    "Done 2\nHTTP/1.1 200 OK\r\nContent-Type: application/json\r\nContent-Length: 7\r\n\r\n1 p abc\
HTTP/1.1 200 OK\r\nContent-Type: application/json\r\nContent-Length: 4\r\n\r\n2 - \
HTTP/1.1 404 Not Found\r\nContent-Type: application/json\r\nContent-Length: 17\r\n\r\n{\"error\":\"route\"}";

#[test]
fn an_input_is_served_alike_however_it_is_cut(rt: HostRuntime) -> Result<(), Fail> {
    let alloc = rt.alloc();
    for cut in 1..THREE.len() + 1 {
        let text = served(alloc, THREE, cut, Vec::new(alloc))?;
        assert_eq!(rt; text.as_str(), OF_THREE, "{cut}");
    }
    Ok(())
}

#[test]
fn refusals_have_their_bytes(rt: HostRuntime) -> Result<(), Fail> {
    let alloc = rt.alloc();
    for (input, want) in [
        (
            "GET /me\r\n\r\n",
            "Closed { status: 400 } 0\nHTTP/1.1 400 Bad Request\r\nContent-Type: application/json\r\nContent-Length: 16\r\nConnection: close\r\n\r\n{\"error\":\"head\"}",
        ),
        (
            "GET /me HTTP/1.1\r\nContent-Length: +1\r\nTransfer-Encoding: chunked\r\n\r\n",
            "Closed { status: 400 } 0\nHTTP/1.1 400 Bad Request\r\nContent-Type: application/json\r\nContent-Length: 18\r\nConnection: close\r\n\r\n{\"error\":\"length\"}",
        ),
        (
            "GET /me HTTP/1.1\r\ncontent-length: 65537\r\nTransfer-Encoding: chunked\r\n\r\n",
            "Closed { status: 501 } 0\nHTTP/1.1 501 Not Implemented\r\nContent-Type: application/json\r\nContent-Length: 27\r\nConnection: close\r\n\r\n{\"error\":\"transfer-coding\"}",
        ),
        (
            "GET /me HTTP/1.1\r\nContent-Length: 0065537\r\n\r\n",
            "Closed { status: 413 } 0\nHTTP/1.1 413 Payload Too Large\r\nContent-Type: application/json\r\nContent-Length: 43\r\nConnection: close\r\n\r\n{\"error\":\"length-limit\",\"length\":\"0065537\"}",
        ),
        (
            "HEAD /submit HTTP/1.1\r\n\r\n",
            "Done 0\nHTTP/1.1 405 Method Not Allowed\r\nContent-Type: application/json\r\nAllow: POST\r\nContent-Length: 18\r\nConnection: close\r\n\r\n{\"error\":\"method\"}",
        ),
    ] {
        let text = served(alloc, input.as_bytes(), 9, Vec::new(alloc))?;
        assert_eq!(rt; text.as_str(), want);
    }
    Ok(())
}

#[test]
fn heads_end_and_close_as_they_should(rt: HostRuntime) -> Result<(), Fail> {
    let alloc = rt.alloc();
    for (input, want) in [
        ("", "Done 0\n"),
        ("\r\n\n", "Done 0\n"),
        ("\r", "Truncated { bytes: 1 } 0\n"),
        ("\nGET /me HTTP/1.1\r\n", "Truncated { bytes: 19 } 0\n"),
        (
            "POST /try HTTP/1.1\nContent-Length: 4\n\nabc",
            "Truncated { bytes: 41 } 0\n",
        ),
        (
            "GET /me HTTP/1.1\nConnection: Close\n\nGET /me HTTP/1.1\n\n",
            "Done 1\n",
        ),
        ("GET /me HTTP/1.0\n\nGET /me HTTP/1.1\n\n", "Done 1\n"),
        (
            "GET /me HTTP/1.1\nConnection: keep-alive\nconnection: CLOSE\n\nGET /me HTTP/1.1\n\n",
            "Done 1\n",
        ),
        (
            "GET /me HTTP/1.1\nConnection: keep-alive\n\nGET /me HTTP/1.1\n\n",
            "Done 2\n",
        ),
        (
            "GET /me HTTP/1.1\nContent-Length: 1\nContent-Length: 1\n\na",
            "Closed { status: 400 } 0\n",
        ),
        (
            "GET /me HTTP/1.1\nContent-Length: 1\nContent-Length: 2\n\na",
            "Closed { status: 400 } 0\n",
        ),
        (
            "GET /me HTTP/1.1\nA: b\n c\n\n",
            "Closed { status: 400 } 0\n",
        ),
        (
            "GET /me HTTP/1.1\nA: b\0c\n\n",
            "Closed { status: 400 } 0\n",
        ),
        (
            "GET /level/Old%20Town/3 HTTP/1.1\n\nGET /m%65 HTTP/1.1\n\n",
            "Done 1\n",
        ),
        (
            "POST /try HTTP/1.1\nContent-Length: 3\n\n\r\n\n\nGET /me HTTP/1.1\n\n",
            "Done 2\n",
        ),
    ] {
        let text = served(alloc, input.as_bytes(), 7, Vec::new(alloc))?;
        assert!(rt; text.as_str().starts_with(want), "{input}: {text}");
    }
    Ok(())
}

/// So many copies of a text.
fn repeated(alloc: Global, text: &[u8], times: u32) -> Result<Vec<u8>, AllocError> {
    let mut all = Vec::new(alloc);
    for _ in 0..times {
        all.extend_from_slice(text)?;
    }
    Ok(all)
}

#[test]
fn limits_hold_at_their_edges(rt: HostRuntime) -> Result<(), Fail> {
    let alloc = rt.alloc();
    for (front, text, times, back, want) in [
        ("", "GET /me HTTP/1.1\n\n", 1_000, "", "Done 1000\n"),
        ("", "GET /me HTTP/1.1\n\n", 1_001, "", "Done 1000\n"),
        ("GET /me HTTP/1.1\n", "a:\n", 64, "\n", "Done 1\n"),
        (
            "GET /me HTTP/1.1\n",
            "a:\n",
            65,
            "\n",
            "Closed { status: 431 } 0\n",
        ),
        ("GET /me HTTP/1.1\na:", "b", 16_363, "\n\n", "Done 1\n"),
        (
            "GET /me HTTP/1.1\na:",
            "b",
            16_364,
            "\n\n",
            "Closed { status: 431 } 0\n",
        ),
        (
            "POST /try HTTP/1.1\nContent-Length: 65536\n\n",
            "b",
            65_536,
            "",
            "Done 1\n",
        ),
        (
            "POST /try HTTP/1.1\nContent-Length: 65537\n\n",
            "b",
            65_537,
            "",
            "Closed { status: 413 } 0\n",
        ),
    ] {
        let mut input = repeated(alloc, front.as_bytes(), 1)?;
        input.extend_from_slice(&repeated(alloc, text.as_bytes(), times)?)?;
        input.extend_from_slice(back.as_bytes())?;
        let told = served(alloc, &input, 5_000, Vec::new(alloc))?;
        assert!(rt; told.as_str().starts_with(want), "{front} {times}");
    }
    Ok(())
}

#[test]
fn a_failing_call_ends_with_what_was_whole_before(rt: HostRuntime) -> Result<(), Fail> {
    let alloc = rt.alloc();
    for (call, want) in [
        (0, "ReadFault 0\n"),
        (1, "ReadFault 0\n"),
        (2, "ReadFault 0\n"),
        (3, "ReadFault 0\n"),
        (4, "ReadFault 0\n"),
        (5, "WriteFault 1\n"),
        (6, "ReadFault 1\n"),
        (7, "WriteFault 2\n"),
        (8, "ReadFault 2\n"),
        (9, "ReadFault 2\n"),
        (10, "WriteFault 2\n"),
        (11, "ReadFault 2\n"),
        (12, "Done 2\n"),
    ] {
        let text = served(alloc, THREE, 15, vec![in alloc; call]?)?;
        assert!(rt; text.as_str().starts_with(want), "{call}: {text}");
    }
    Ok(())
}
